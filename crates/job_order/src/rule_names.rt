// The table of a job's rules, as the definitions have it.
ghost use Rattle.std.specs.Prelude.{◌≡◌};
ghost use Rattle.job_spec.specs.RuleNames.{field_name, fields_of, kind_field, kind_name, needed_of};
ghost use Rattle.job_spec.specs.Rules.{kind_named};

use job_spec::{Field, Kind};

/// The name of the field that every rule has.
#[tactic(auto, unfolding(job_spec::specs::RuleNames::kind_field))]
pub(crate) fn kind_field() -> &'static str
    ensures { result.now ≡ kind_field }
{
    "kind"
}

/// All fields.
pub(crate) const FIELDS: [Field; 7] = [
    Field::Answer,
    Field::Prefixes,
    Field::Seeds,
    Field::Max,
    Field::Speculative,
    Field::Patterns,
    Field::Names,
];

/// All kinds.
const KINDS: [Kind; 9] = [
    Kind::Accept,
    Kind::Reject,
    Kind::Surts,
    Kind::Hops,
    Kind::Transclusion,
    Kind::Regex,
    Kind::Pathological,
    Kind::Segments,
    Kind::Schemes,
];

/// The name of a field.
#[tactic(auto, unfolding(job_spec::specs::RuleNames::field_name))]
pub(crate) fn field_name(field: Field) -> &'static str
    ensures { result.now ≡ field_name field }
{
    match field {
        Field::Answer => "answer",
        Field::Prefixes => "prefixes",
        Field::Seeds => "seeds",
        Field::Max => "max",
        Field::Speculative => "speculative",
        Field::Patterns => "patterns",
        Field::Names => "names",
    }
}

/// The name of a kind.
#[tactic(auto, unfolding(job_spec::specs::RuleNames::kind_name))]
fn kind_name(kind: Kind) -> &'static str
    ensures { result.now ≡ kind_name kind }
{
    match kind {
        Kind::Accept => "accept",
        Kind::Reject => "reject",
        Kind::Surts => "surts",
        Kind::Hops => "hops",
        Kind::Transclusion => "transclusion",
        Kind::Regex => "regex",
        Kind::Pathological => "pathological",
        Kind::Segments => "segments",
        Kind::Schemes => "schemes",
    }
}

/// The fields of a kind.
#[tactic(auto, unfolding(job_spec::specs::RuleNames::fields_of))]
pub(crate) fn fields_of(kind: Kind) -> &'static [Field]
    ensures { result.now ≡ fields_of kind }
{
    match kind {
        Kind::Accept | Kind::Reject => &[],
        Kind::Surts => &[Field::Answer, Field::Prefixes, Field::Seeds],
        Kind::Hops | Kind::Pathological | Kind::Segments => &[Field::Max],
        Kind::Transclusion => &[Field::Max, Field::Speculative],
        Kind::Regex => &[Field::Answer, Field::Patterns],
        Kind::Schemes => &[Field::Names],
    }
}

/// Those that a rule of the kind has to give.
#[tactic(auto, unfolding(job_spec::specs::RuleNames::needed_of))]
pub(crate) fn needed_of(kind: Kind) -> &'static [Field]
    ensures { result.now ≡ needed_of kind }
{
    match kind {
        Kind::Surts => &[Field::Answer],
        _ => fields_of(kind),
    }
}

/// The kind of a name.
#[tactic(auto, unfolding(job_spec::specs::Rules::kind_named))]
pub(crate) fn kind_named(name: &str) -> Option<Kind>
    ensures { result ≡ kind_named name.now }
{
    KINDS.iter().copied().find(|kind| kind_name(*kind) == name)
}
