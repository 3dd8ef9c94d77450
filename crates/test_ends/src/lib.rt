//! Ends of tests: what fails one is a call.
#![tactic(auto)]

ghost use Rattle.std.specs.Prelude.{◌≡◌, Some, is_none, is_ok, option_map, string_bytes, OkIff};

use std::test::Fail;

/// Fails where this doesn't hold.
pub fn holds(is: bool, what: &str) -> Result<(), Fail>
    ensures { is_ok result ≡ is }
{
    if is { Ok(()) } else { Err(Fail::new(what)) }
}

/// Fails where there is no text, or another one than is wanted.
pub fn says(told: Option<String>, want: &str) -> Result<(), Fail>
    ensures { OkIff result (option_map string_bytes told ≡ Some want.now) tt }
{
    let Some(told) = told else {
        return Err(Fail::new("nothing was told"));
    };
    if told.as_str() == want {
        drop(told);
        Ok(())
    } else {
        Err(Fail::new(told))
    }
}

/// Fails where there is a number.
pub fn none(number: Option<u64>) -> Result<(), Fail>
    ensures { is_ok result ≡ is_none number }
{
    match number {
        None => Ok(()),
        Some(number) => Err(Fail::new(number)),
    }
}
