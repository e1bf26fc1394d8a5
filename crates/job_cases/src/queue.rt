// The order in which a host's queue gives its items.
ghost use Rattle.std.specs.Prelude.{◌≡◌, ◌<◌, All, IfOk, length, None};

use case_file::{Entry, Reply};
use crawl_kinds::{ClassKey, HopPath, Item, Key, Uri};
use host_queue::HostQueue;
use std::alloc::Global;
use std::test::Fail;

fn item(alloc: Global, rank: u8) -> Result<Item, Fail> {
    Ok(Item {
        key: Key::new(alloc, "http://a.test/")?,
        uri: Uri::new(alloc, "http://a.test/")?,
        class: ClassKey::new(alloc, "test,a,")?,
        path: HopPath::new(alloc, "L")?,
        via: None,
        rank,
    })
}

/// A queue of items of these ranks, whose ordinals count from 0.
fn queue_of(alloc: Global, ranks: &[u8]) -> Result<HostQueue, Fail>
    ensures { IfOk result (λ queue. (queue.taken ≡ None) × All (λ entry. entry.1 < length ranks.now) queue.waiting) }
{
    let mut queue = HostQueue::new(alloc);
    for (i, rank) in ranks.iter().enumerate() {
        queue.push(item(alloc, *rank)?, i as u64)?;
    }
    Ok(queue)
}

/// The first item goes out and comes back.
fn out_and_back(queue: &mut HostQueue)
    ensures { queue.new.waiting ≡ queue.old.waiting }
{
    if let Some((item, ordinal)) = queue.take_first() {
        queue.put_back(item, ordinal);
    }
}

/// While the first item is out, another is added.
fn added_meanwhile(queue: &mut HostQueue, added: Item, ordinal: u64) -> Result<(), Fail>
    requires { All (λ entry. entry.1 < ordinal) queue.old.waiting }
{
    if let Some((item, at)) = queue.take_first() {
        queue.push(added, ordinal)?;
        queue.put_back(item, at);
    }
    Ok(())
}

/// A queue of these ranks, whose first item went out and came back, and went out once more while one of this rank was added.
fn queue_with(alloc: Global, added: u8, ranks: &[u8]) -> Result<HostQueue, Fail> {
    let mut queue = queue_of(alloc, ranks)?;
    out_and_back(&mut queue);
    added_meanwhile(&mut queue, item(alloc, added)?, ranks.len() as u64)?;
    Ok(queue)
}

/// The rank of the item that is given next; 255 where there is none.
fn next_rank(queue: &HostQueue) -> u8 {
    match queue.first() {
        Some(item) => item.rank,
        None => 255,
    }
}

/// The ranks and ordinals of the items of a queue, as it gives so many of them.
fn given(alloc: Global, queue: &mut HostQueue, count: usize) -> Result<String, Fail> {
    let mut said = String::new(alloc);
    for _ in 0..count {
        let next = next_rank(queue);
        let Some((item, ordinal)) = queue.take_first() else {
            return Err(Fail::from("an item is missing"));
        };
        let rank = item.rank;
        if rank != next {
            return Err(Fail::from("another item was next"));
        }
        said.push_str(format!(in alloc; "{rank}:{ordinal} ")?.as_str())?;
    }
    Ok(said)
}

/// The ranks that words say, after the first.
fn ranks_of(alloc: Global, entry: &Entry) -> Result<Vec<u8>, Fail> {
    let mut ranks = Vec::new(alloc);
    for word in entry.words.iter().skip(1) {
        ranks.push(str::from_utf8(word.as_slice())?.parse::<u8>()?)?;
    }
    Ok(ranks)
}

/// `queue ADDED RANK ..`: the order of items of these ranks, to which one of rank ADDED came while the first was out, and `end`.
pub fn order(alloc: Global, entry: &Entry) -> Result<Reply, Fail> {
    let ranks = ranks_of(alloc, entry)?;
    let added = entry.text_word(0).parse::<u8>()?;
    let mut queue = queue_with(alloc, added, ranks.as_slice())?;
    let count = ranks.len().saturating_add(1);
    let mut said = given(alloc, &mut queue, count)?;
    if queue.take_first().is_some() {
        return Err(Fail::from("there is an item more"));
    }
    said.push_str("end")?;
    Ok(Reply::Said(said.into_bytes()))
}
