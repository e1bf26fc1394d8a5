// What has become of an item, as far as its chain went.
use crate::ending::Ending;
use crawl_kinds::Listed;
use http_message::Reply;
use link_extract::Links;

/// A whole response, what was asked for it, and the ending that it gives.
#[derive(Drop)]
pub(crate) struct Answer {
    pub ending: Ending,
    pub request: Listed<u8>,
    pub reply: Reply,
}

/// What has become of an item.
#[derive(Drop)]
pub(crate) enum Draft {
    /// Nothing was asked.
    New,
    /// It may be fetched.
    MayFetch,
    /// It ended without a whole response.
    Ended(Ending),
    /// A whole response came.
    Answered(Answer),
    /// And its links were found.
    Searched(Answer, Links),
}
