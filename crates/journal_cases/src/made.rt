// Events that are made here and written, so that the writer is asked apart from the reader.
use case_file::{Entry, Reply};
use crawl_kinds::*;
use journal_lines::event_lines;
use std::alloc::Global;
use std::test::Fail;

const TIME: Millis = 1_700_000_000_000;

/// The lines of the event that a case names, behind the text of the case.
pub fn written(alloc: Global, entry: &Entry) -> Result<Reply, Fail> {
    let event = event_of(alloc, entry)?;
    let mut into = entry.text.clone()?;
    event_lines(&event, &mut into)?;
    Ok(Reply::Said(into))
}

fn event_of(alloc: Global, entry: &Entry) -> Result<Event, Fail> {
    match entry.text_word(0) {
        "session" => session(alloc, entry),
        "seeds" => seeds(alloc, entry),
        "emit" => emit(alloc, entry),
        "finish" => finish(alloc, entry),
        "success" => success(alloc, entry),
        _ => Err(Fail::from("no such event")),
    }
}

/// The number that a word says.
fn number(entry: &Entry, word: usize) -> Result<u64, Fail> {
    Ok(entry.number(word).ok_or("a word is no number")?)
}

/// The number of 32 bits that a word says.
fn small(entry: &Entry, word: usize) -> Result<u32, Fail> {
    Ok(entry.text_word(word).parse::<u32>()?)
}

/// The signed number that a word says.
fn signed(entry: &Entry, word: usize) -> Result<i32, Fail> {
    Ok(entry.text_word(word).parse::<i32>()?)
}

/// `session TIME JOB FORMAT`
fn session(alloc: Global, entry: &Entry) -> Result<Event, Fail> {
    Ok(Event::Session {
        time: number(entry, 1)?,
        job: Key::new(alloc, entry.text_word(2))?,
        format: small(entry, 3)?,
    })
}

/// An item that is found by a path. Its key, its class and its rank are on no line.
fn item(alloc: Global, uri: &str, path: &str, via: Option<Uri>) -> Result<Item, Fail> {
    Ok(Item {
        uri: Uri::new(alloc, uri)?,
        via,
        key: Key::new(alloc, "key")?,
        class: ClassKey::new(alloc, "class")?,
        path: HopPath::new(alloc, path)?,
        rank: 3,
    })
}

/// An item that `http://a.test/` names.
fn linked(alloc: Global, uri: &str, path: &str) -> Result<Item, Fail> {
    let via = Uri::new(alloc, "http://a.test/")?;
    item(alloc, uri, path, Some(via))
}

/// `seeds TIME URI ..`: each is listed, and added.
fn seeds(alloc: Global, entry: &Entry) -> Result<Event, Fail> {
    let time = number(entry, 1)?;
    let mut list = Uris::new(alloc);
    let mut adds = Items::new(alloc);
    for number in 2..entry.words.len() {
        let uri = entry.text_word(number);
        list.push(Uri::new(alloc, uri)?)?;
        adds.push(item(alloc, uri, "", None)?)?;
    }
    Ok(Event::Seeds { time, list, adds })
}

fn verdict(name: &str) -> Result<Verdict, Fail> {
    match name {
        "allowed" => Ok(Verdict::Allowed),
        "precluded" => Ok(Verdict::Precluded),
        "needed" => Ok(Verdict::Needed),
        "unsupported" => Ok(Verdict::Unsupported),
        "unreachable" => Ok(Verdict::Unreachable),
        _ => Err(Fail::from("no such verdict")),
    }
}

/// `emit VERDICT CALLER TICKET`
fn emit(alloc: Global, entry: &Entry) -> Result<Event, Fail> {
    Ok(Event::Emit {
        time: TIME,
        caller: small(entry, 2)?,
        ticket: number(entry, 3)?,
        verdict: verdict(entry.text_word(1))?,
        item: linked(alloc, "http://b.test/x", "LE")?,
    })
}

fn outcome(name: &str) -> Result<Outcome, Fail> {
    match name {
        "success" => Ok(Outcome::Success),
        "failure" => Ok(Outcome::Failure),
        "disregard" => Ok(Outcome::Disregard),
        "retry" => Ok(Outcome::Retry),
        _ => Err(Fail::from("no such outcome")),
    }
}

fn cut(name: &str) -> Option<Cut> {
    match name {
        "length" => Some(Cut::Length),
        "disconnect" => Some(Cut::Disconnect),
        _ => None,
    }
}

/// `CUT TRIES CAUSE`, in three words.
fn notes(entry: &Entry, words: [usize; 3]) -> Result<Notes, Fail> {
    let [first, second, third] = words;
    Ok(Notes {
        cut: cut(entry.text_word(first)),
        tries: small(entry, second)?,
        cause: signed(entry, third)?,
    })
}

/// `finish OUTCOME CODE CUT TRIES CAUSE`: an end without a fetch, that adds a robots file.
fn finish(alloc: Global, entry: &Entry) -> Result<Event, Fail> {
    let mut adds = Items::new(alloc);
    adds.push(linked(alloc, "http://a.test/robots.txt", "P")?)?;
    let end = End {
        outcome: outcome(entry.text_word(1))?,
        code: signed(entry, 2)?,
        fetch: None,
        body: None,
        notes: notes(entry, [3, 4, 5])?,
    };
    Ok(Event::Finish {
        time: TIME,
        caller: 31,
        ticket: 1,
        item: linked(alloc, "http://b.test/x", "LE")?,
        end,
        adds,
    })
}

/// `SIZE TYPE DIGEST FILE AT LEN`, from word 3 on.
fn body(alloc: Global, entry: &Entry) -> Result<Body, Fail> {
    Ok(Body {
        size: number(entry, 3)?,
        media: Media::new(alloc, entry.text_word(4))?,
        digest: Digest::new(alloc, entry.text_word(5))?,
        spot: Spot {
            file: small(entry, 6)?,
            at: number(entry, 7)?,
            len: number(entry, 8)?,
        },
    })
}

/// `success CODE DURATION SIZE TYPE DIGEST FILE AT LEN CUT TRIES CAUSE`: the end of a robots file.
fn success(alloc: Global, entry: &Entry) -> Result<Event, Fail> {
    let end = End {
        outcome: Outcome::Success,
        code: signed(entry, 1)?,
        fetch: Some(Fetch {
            start: TIME,
            duration: number(entry, 2)?,
        }),
        body: Some(body(alloc, entry)?),
        notes: notes(entry, [9, 10, 11])?,
    };
    Ok(Event::Finish {
        time: TIME,
        caller: 0,
        ticket: 2,
        item: linked(alloc, "http://a.test/robots.txt", "P")?,
        end,
        adds: Items::new(alloc),
    })
}
