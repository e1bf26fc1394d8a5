// An item that was processed.
ghost use Rattle.std.specs.Prelude.{◌≡◌, ◌≤◌, is_some, IfSome};
ghost use Rattle.std.specs.Option.{option_copied};
ghost use Rattle.crawl_history.specs.Ends.{Suits};
ghost use Rattle.crawl_history.specs.Facts.{Archive, Facts};
ghost use Rattle.journal_valid.specs.Ends.{IsBody, IsEnd};
ghost use Rattle.process_chains.specs.Done.{IsBodyOf, IsDone, block_of, payload_of};
ghost use Rattle.process_chains.specs.Endings.{end_with};

use crate::ending::{Ending, end_of};
use crawl_kinds::{Body, End, Fetch, Listed, Notes, Outcome, Settings, Work};
use http_message::Reply;
use link_extract::Links;
use said::Said;
use std::marker::Model;

/// An item that was handed out, and what came of it. `process` alone makes one. Contracts see the work, the settings that
/// it was processed with, the ending, the request, the reply and the links.
///
/// How long its host is left alone afterwards is no part of it: the core takes that from the fetch and the settings.
#[derive(Drop)]
pub struct Processed {
    work: Work,
    settings: Said<Settings>,
    ending: Ending,
    request: Listed<u8>,
    reply: Option<Reply>,
    links: Links,
}

impl Model for Processed {
    ghost use Rattle.process_chains.specs.Done.{Done, IsDone};

    ghost Value = { Done };

    ghost view = { λ a. record { work = a.work; settings = a.settings.value; ending = a.ending; request = a.request; reply = a.reply; links = a.links } };

    ghost invariant = { λ a. IsDone (record { work = a.work; settings = a.settings.value; ending = a.ending; request = a.request; reply = a.reply; links = a.links }) };
}

/// An item that was processed, of what came of it.
pub(crate) fn processed_of(
    work: Work,
    settings: Said<Settings>,
    ending: Ending,
    request: Listed<u8>,
    reply: Option<Reply>,
    links: Links,
) -> Processed
    requires { IsDone (record { work = work; settings = settings.value; ending = ending; request = request; reply = reply; links = links }) }
    ensures { result ≡ record { work = work; settings = settings.value; ending = ending; request = request; reply = reply; links = links } }
{
    Processed {
        work,
        settings,
        ending,
        request,
        reply,
        links,
    }
}

impl Processed {
    /// What was handed out.
    pub fn work(&self) -> &Work
        ensures { result.now ≡ self.now.work }
    {
        &self.work
    }

    /// How the item ended.
    pub fn outcome(&self) -> Outcome
        ensures { result ≡ self.now.ending.outcome }
    {
        self.ending.outcome
    }

    /// The status of the response, or the code below 0 of an end without one.
    pub fn code(&self) -> i32
        ensures { result ≡ self.now.ending.code }
    {
        self.ending.code
    }

    /// When the fetch began and how long it took, where there was one.
    pub fn fetch(&self) -> Option<Fetch>
        ensures { result ≡ self.now.ending.fetch }
    {
        self.ending.fetch
    }

    /// The try number, and the code of the fault that caused a last failure, or 0.
    pub fn notes(&self) -> &Notes
        ensures { result.now ≡ self.now.ending.notes }
    {
        &self.ending.notes
    }

    /// The end that is recorded, with this body. It suits the work as soon as the body is that of the response, where one
    /// came, and there is none else; with a body that a line of the journal can name, so can one name the end.
    pub fn end_with(&self, body: Option<Body>) -> End
        ensures is { result ≡ end_with self.now.ending body }
        ensures suits { (f : Facts) (a : Archive) → f.settings ≡ self.now.settings → IsBodyOf f a self.now.work.item.uri self.now.ending self.now.reply body
            → Suits f a self.now.work.tries self.now.work.item result self.now.work.verdict }
        ensures valid { 1 ≤ self.now.work.tries → is_some body ≡ is_some self.now.reply → IfSome body IsBody → IsEnd result }
    {
        end_of(&self.ending, body)
    }

    /// What was asked for the response; nothing where none came.
    pub fn request(&self) -> &[u8]
        ensures { result.now ≡ self.now.request }
    {
        self.request.as_slice()
    }

    /// The response, where a whole one came. `done` is what is known of it.
    pub fn reply(&self) -> Option<&Reply>
        ensures same { option_copied result ≡ self.now.reply }
        ensures done { IsDone self.now }
    {
        self.reply.as_ref()
    }

    /// The bytes of the response; none where none came.
    pub fn block(&self) -> &[u8]
        ensures { result.now ≡ block_of self.now.reply }
    {
        match &self.reply {
            Some(reply) => reply.block.as_slice(),
            None => &[],
        }
    }

    /// What stands behind the head of the response; nothing where none came.
    pub fn payload(&self) -> &[u8]
        ensures { result.now ≡ payload_of self.now.reply }
    {
        match &self.reply {
            Some(reply) => &reply.block.as_slice()[reply.head_len..],
            None => &[],
        }
    }

    /// The links of the response of a page, and of that of a robots file the first redirect alone, which may be followed.
    pub fn links(&self) -> &Links
        ensures same { result.now ≡ self.now.links }
        ensures done { IsDone self.now }
    {
        &self.links
    }
}
