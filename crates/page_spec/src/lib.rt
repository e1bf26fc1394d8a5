//! Definitions of the request for an address and of where it goes, of a whole response, and of how an exchange ends, with
//! examples that are computed from them.
#![tactic(auto)]

ghost use Rattle.page_spec.specs.Response.{IsOne};
ghost use Rattle.page_spec.specs.Worked.{ArePeers, AreRequests, AreResponses};
ghost use Rattle.std.specs.Prelude.{ℕ};

/// What the definitions give for addresses and heads whose answers are known.
pub fn worked_examples()
    ensures requests { AreRequests }
    ensures peers { ArePeers }
    ensures responses { AreResponses }
{}

/// Bytes begin with at most one whole response.
pub fn unique_response()
    ensures { (limit : ℕ) → IsOne limit }
{}
