// What `enqueue` prints.
ghost use Rattle.std.specs.Prelude.{◌≡◌, ◌++◌, IfOk, OnOk};
ghost use Rattle.std.specs.List.{flat_map};
ghost use Rattle.job_commands.specs.Queue.{IsShown, queue_line, queue_text};

use crawl_kinds::{Item, NoMemory};
use open_crawl::OpenCrawl;
use std::alloc::{AllocError, Global};

fn push_line(text: &mut Vec<u8>, item: &Item) -> Result<(), AllocError>
    ensures { OnOk result (text.new.items ≡ text.old.items ++ queue_line item.now) }
{
    text.extend_from_slice(item.class.as_bytes())?;
    text.push(b' ')?;
    text.extend_from_slice(item.uri.as_bytes())?;
    text.push(b'\n')?;
    Ok(())
}

/// A line for each item: its class and its address.
fn queue_text(alloc: Global, queue: &[Item]) -> Result<Vec<u8>, NoMemory>
    ensures { IfOk result (λ text. text.items ≡ queue_text queue.now) }
{
    let mut text = Vec::new(alloc);
    for item in queue {
        push_line(&mut text, item)?;
    }
    Ok(text)
}

/// The lines of what waits in a crawl.
pub fn shown(alloc: Global, crawl: &OpenCrawl) -> Result<Vec<u8>, NoMemory>
    ensures { IfOk result (λ text. IsShown crawl.now.frontier.events text.items) }
{
    let items = crawl.waiting(alloc)?;
    queue_text(alloc, items.as_slice())
}
