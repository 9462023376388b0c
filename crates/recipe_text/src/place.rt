// Places that are filled once, and lists that are filled up to a limit.
ghost use Rattle.std.specs.Prelude.{◌≡◌, ◌++◌, ◌&&◌, IsTrue, IfOk, is_some, not, nat_lt, length};
ghost use Rattle.std.specs.Option.{option_to_list};

use std::alloc::AllocError;

// Fills a place that is empty with a value that is there, and says whether it did.
pub(crate) fn fill<T: Drop>(place: &mut Option<T>, value: Option<T>) -> bool
    ensures fills { result ≡ (not (is_some place.old) && is_some value) }
    ensures filled { IsTrue result → place.new ≡ value }
{
    if place.is_some() || value.is_none() {
        return false;
    }
    *place = value;
    true
}

// Adds a value that is there to a list that has fewer than so many, and says whether it did.
pub(crate) fn add<T: Drop>(
    list: &mut Vec<T>,
    most: usize,
    value: Option<T>,
) -> Result<bool, AllocError>
    ensures adds { IfOk result (λ added. added
        ≡ (nat_lt (length list.old.items) most && is_some value)) }
    ensures added { IfOk result (λ added. IsTrue added
        → list.new.items ≡ list.old.items ++ option_to_list value) }
{
    if list.len() >= most {
        return Ok(false);
    }
    let Some(value) = value else {
        return Ok(false);
    };
    list.push(value)?;
    Ok(true)
}
