// Lists of values that are all taken.
ghost use Rattle.std.specs.Prelude.{◌≡◌, Option, IfOk, map};
ghost use Rattle.toml.specs.Data.{Data};
ghost use Rattle.toml.specs.View.{view};
ghost use Rattle.job_spec.specs.Rules.{as_list};
ghost use Rattle.job_spec.specs.Values.{all_given};

use crawl_kinds::{Listed, NoMemory};
use std::alloc::Global;
use toml::Value;

/// What an item of a list gives, where it is taken.
pub(crate) trait Element {
    ghost use Rattle.std.specs.Prelude.{Option, IfOk, ◌≡◌};
    ghost use Rattle.toml.specs.Data.{Data};
    ghost use Rattle.toml.specs.View.{view};

    /// What a value gives.
    ghost reads: { Data → Option Self };

    /// What a value gives, where it is taken.
    fn of(alloc: Global, value: &Value) -> Result<Option<Self>, NoMemory>
        ensures { IfOk result (λ own. own ≡ reads (view value.now)) };
}

/// What the values give, where all are taken.
pub(crate) fn list_of<T: Element + Drop>(
    alloc: Global,
    values: &[Value],
) -> Result<Option<Listed<T>>, NoMemory>
    ensures { IfOk result (λ list. list ≡ all_given (map T.reads (map view values.now))) }
{
    let mut list = Listed::new(alloc);
    for value in values {
        match T::of(alloc, value)? {
            Some(item) => list.push(item)?,
            None => return Ok(None),
        }
    }
    Ok(Some(list))
}

/// The list that a value is, where it is one and all its items are taken.
pub(crate) fn list_at<T: Element + Drop>(
    alloc: Global,
    value: &Value,
) -> Result<Option<Listed<T>>, NoMemory>
    ensures { IfOk result (λ list. list ≡ as_list T.reads (view value.now)) }
{
    match value.as_array() {
        Some(values) => list_of(alloc, values.as_slice()),
        None => Ok(None),
    }
}
