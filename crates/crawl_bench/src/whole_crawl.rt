//! `core PAGES HOSTS`: a site of so many pages on so many hosts in memory, all of which are found from one seed, is crawled over
//! a volume in memory by a clock in memory, until the crawl is over. Counts the pages and robots files that came. With a third
//! argument it prints the milliseconds of processor time of the crawl, too.
use crate::shared::{count, since, with_millis};
use crawl_memory::{MemClock, MemLink, MemSink, MemVolume, Page, Site};
use job_ranges::job_is_in_range;
use open_crawl::{OpenCrawl, read_job, write_job};
use polite_crawl::{Ended, crawl};
use std::alloc::{AllocError, Global};
use std::test::Fail;
use std::time::CpuClock;

/// A job of one seed whose scope has each host of a domain, with the delays that a job has by default.
const JOB: &[u8; 122] =
    b"name = \"bench\"\nagent = \"sampler\"\ncontact = \"http://example.org/bot\"\nseeds = \"\"\"\nhttp://h0.test/p0.html\n+http://(test,\n\"\"\"\n";

/// When the crawl begins, in milliseconds since 1970.
const START: u64 = 1_700_000_000_000;

/// More turns than a crawl of a million pages has.
const TURNS: u64 = 1_000_000_000;

/// The robots file of every second host; the others have none.
const ROBOTS: &[u8] =
    b"HTTP/1.1 200 OK\r\nContent-Type: text/plain\r\nContent-Length: 24\r\n\r\nUser-agent: *\nDisallow:\n";

/// A site: so many pages, on so many hosts in turn.
#[derive(Clone, Copy)]
struct Shape {
    pages: u64,
    hosts: u64,
}

impl Shape {
    /// The host of the page of this number.
    fn host_of(self, number: u64) -> u64 {
        number.checked_rem(self.hosts).unwrap_or(0)
    }
}

/// A link to the page of this number, where there is one.
fn push_link(
    alloc: Global,
    text: &mut String,
    number: u64,
    shape: Shape,
) -> Result<(), AllocError> {
    if number >= shape.pages {
        return Ok(());
    }
    let host = shape.host_of(number);
    let link = format!(in alloc; "<a href=\"http://h{host}.test/p{number}.html\">{number}</a>\n")?;
    text.push_str(link.as_str())
}

/// What is answered for the page of this number: links to the two that only it leads to, and to the first.
fn answer(alloc: Global, number: u64, shape: Shape) -> Result<String, AllocError> {
    let mut body = String::new(alloc);
    let double = number.saturating_mul(2);
    push_link(alloc, &mut body, double.saturating_add(1), shape)?;
    push_link(alloc, &mut body, double.saturating_add(2), shape)?;
    push_link(alloc, &mut body, 0, shape)?;
    format!(in alloc;
        "HTTP/1.1 200 OK\r\nContent-Type: text/html\r\nContent-Length: {}\r\n\r\n{}",
        body.len(),
        body
    )
}

/// Puts what is answered for a target of the host of this number in memory.
fn put(alloc: Global, site: &mut Site, host: u64, target: &str, bytes: &[u8]) -> Result<(), Fail> {
    let name = format!(in alloc; "h{host}.test")?;
    site.push(Page::of(alloc, name.as_str(), 80, target, bytes)?)?;
    Ok(())
}

/// The pages and robots files of a site, in memory.
fn site_of(alloc: Global, shape: Shape) -> Result<Site, Fail> {
    let mut site = Site::new(alloc);
    for number in 0..shape.hosts {
        if number % 2 == 1 {
            put(alloc, &mut site, number, "/robots.txt", ROBOTS)?;
        }
    }
    for number in 0..shape.pages {
        let target = format!(in alloc; "/p{number}.html")?;
        let page = answer(alloc, number, shape)?;
        let host = shape.host_of(number);
        put(alloc, &mut site, host, target.as_str(), page.as_bytes())?;
    }
    Ok(site)
}

/// What a crawl of a site prints, after it is over.
fn crawled(alloc: Global, site: Site) -> Result<MemSink, Fail> {
    job_is_in_range();
    let mut volume = MemVolume::new(alloc);
    write_job(alloc, &mut volume, JOB)?;
    let job = read_job(alloc, &mut volume)?;
    let mut own = OpenCrawl::open(alloc, &mut volume, job, START)?;
    let mut out = MemSink::new(alloc, Vec::new(alloc));
    let mut link = MemLink::new(alloc, site, Vec::new(alloc));
    let clock = MemClock::at(START);
    match crawl(
        alloc,
        &mut own,
        &mut volume,
        &mut out,
        &mut link,
        &clock,
        TURNS,
    ) {
        Ok(Ended::Over) => Ok(out),
        Ok(Ended::Spent) => Err(Fail::new("the crawl is not over after all its turns")),
        Err(why) => Err(Fail::from(why)),
    }
}

/// How many lines have this end.
fn lines_with(text: &str, end: &str) -> usize {
    text.lines().filter(|line| line.ends_with(end)).count()
}

/// What came, in words.
fn told(alloc: Global, shape: Shape, out: &MemSink) -> Result<String, Fail> {
    let text = str::from_utf8(out.bytes())?;
    let pages = lines_with(text, ".html");
    let robots = lines_with(text, "/robots.txt");
    let Shape { pages: all, hosts } = shape;
    Ok(format!(in alloc; "{all} pages on {hosts} hosts: {pages} came, and {robots} robots files")?)
}

pub fn bench(rt: &impl CpuClock, alloc: Global, words: &[String]) -> Result<String, Fail> {
    let shape = Shape {
        pages: count(words, 1)?,
        hosts: count(words, 2)?,
    };
    let site = site_of(alloc, shape)?;
    let start = rt.thread_cpu_time()?;
    let out = crawled(alloc, site)?;
    let spent = since(rt, start)?;
    let line = told(alloc, shape, &out)?;
    Ok(with_millis(alloc, words, 3, line, spent)?)
}
