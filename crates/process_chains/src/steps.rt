// The steps of the fetch chain, in order.
ghost use Rattle.std.specs.Prelude.{◌≡◌};
ghost use Rattle.process_chains.specs.Drafts.{chain};

/// A step on the way of an item that was handed out.
#[derive(Clone, Copy, Debug, PartialEq, Eq)]
pub enum Step {
    /// The verdict on it is obeyed: what may not be fetched ends here.
    AskVerdict,
    /// What may be fetched is fetched, once.
    GetBytes,
    /// The links of the response that came are found.
    FindLinks,
}

/// The steps, in order.
const FETCH_CHAIN: [Step; 3] = [Step::AskVerdict, Step::GetBytes, Step::FindLinks];

/// The steps that `process` takes, in order.
pub fn fetch_chain() -> &'static [Step]
    ensures { result.now ≡ chain }
{
    &FETCH_CHAIN
}
