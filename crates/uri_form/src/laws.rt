// What follows for addresses from the definitions alone: the proofs of these empty functions are the laws.
ghost use Rattle.std.specs.Prelude.{◌≡◌, Ok, None};
ghost use Rattle.crawl_kinds.specs.Address.{IsUri};
ghost use Rattle.url.specs.Parser.{parse_url};
ghost use Rattle.uri_spec.specs.Key.{key_text, robots_key};
ghost use Rattle.uri_spec.specs.Surt.{class_text, robots_text};
ghost use Rattle.uri_form.specs.Fault.{address_in};
ghost use Rattle.uri_form.specs.Laws.{BeginsWithAuthority};

use crawl_kinds::Uri;

/// An address is read as itself.
pub fn an_address_reads_as_itself(uri: &Uri)
    requires { IsUri uri.now }
    ensures { address_in uri.now (parse_url None uri.now) ≡ Ok uri.now }
{
    let _ = uri;
}

/// The robots file of an address has its class, and a key made of it.
pub fn a_robots_file_is_known_by_its_class(uri: &Uri)
    requires { IsUri uri.now }
    ensures class { class_text (robots_text uri.now) ≡ class_text uri.now }
    ensures key { key_text (robots_text uri.now) ≡ robots_key 0 (class_text uri.now) }
{
    let _ = uri;
}

/// Addresses of one class have one robots file, as far as keys tell.
pub fn one_class_has_one_robots_key(one: &Uri, other: &Uri)
    requires one { IsUri one.now }
    requires other { IsUri other.now }
    ensures { class_text one.now ≡ class_text other.now
        → key_text (robots_text one.now) ≡ key_text (robots_text other.now) }
{
    let _ = one;
    let _ = other;
}

/// A SURT form begins with the authority of its class.
pub fn a_surt_form_begins_with_its_authority(uri: &Uri)
    requires { IsUri uri.now }
    ensures { BeginsWithAuthority uri.now }
{
    let _ = uri;
}
