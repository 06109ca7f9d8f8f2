// A number as a line of a program's input has it, of whatever type the program asks for.
// No plus sign stands before its digits, though a type's own parse takes one.
ghost use Rattle.std.specs.Prelude.{◌≡◌, ◌≢◌, None, Some, Result, slice_get};
ghost use Rattle.std.specs.Result.{result_ok};

use std::str::FromStr;

// The number that the word spells and the type can hold.
pub fn number<T: FromStr>(word: &str) -> Option<T>
where
    T::Err: Drop,
    ensures none_with_a_sign { slice_get word.now 0 ≡ Some 43 → result ≡ None }
    ensures else_what_the_type_reads { (slice_get word.now 0 ≢ Some 43) → (r : Result T T.Err) × T.from_str_gives word.now r × (result ≡ result_ok r) }
{
    if word.starts_with('+') {
        return None;
    }
    word.parse::<T>().ok()
}
