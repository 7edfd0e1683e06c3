ghost use Rattle.std.specs.Prelude.{◌≡◌, MatchResult, Ok, map, option_map};
ghost use Rattle.serde_json.specs.View.{view};
ghost use Rattle.gp_json.specs.Members.{member_of, needed_text as the_needed_text, text_member as the_text_member, whole_member as the_whole_member, array_member as the_array_member, object_member as the_object_member, as_whole as the_whole, IsFaultOf};

use crate::fault::{MemberFault, wrong_form};
use serde_json::Value;
use std::alloc::Global;

/// A whole number that fits 64 bits, written without a fraction and without an exponent.
#[derive(Clone, Copy, Drop, Debug, PartialEq)]
pub enum Whole {
    /// It is 0 or more.
    Unsigned(u64),
    /// Below 0.
    Negative(i64),
}

/// The member of a name, where the value is an object that has it. One that is null counts as absent.
pub fn member<'v>(object: &'v Value, name: &str) -> Option<&'v Value>
    ensures { option_map (λ found. view found.now) result ≡ member_of name.now (view object.now) }
{
    match object.get(name) {
        Some(found) => if found.is_null() { None } else { Some(found) },
        None => None,
    }
}

/// The text of the member of a name, nothing where it is absent, or the fault that it is no string.
pub fn text_member<'v>(
    alloc: Global,
    object: &'v Value,
    name: &str,
) -> Result<Option<&'v str>, MemberFault>
    ensures { MatchResult result
        (λ text. the_text_member name.now (view object.now) ≡ Ok (option_map (λ s. s.now) text))
        (IsFaultOf (the_text_member name.now (view object.now))) }
{
    match member(object, name) {
        Some(found) => match found.as_str() {
            Some(text) => Ok(Some(text)),
            None => Err(wrong_form(alloc, name)),
        },
        None => Ok(None),
    }
}

/// The text of the member of a name, or the fault that it is no string or is absent.
pub fn needed_text<'v>(alloc: Global, object: &'v Value, name: &str) -> Result<&'v str, MemberFault>
    ensures { MatchResult result
        (λ text. the_needed_text name.now (view object.now) ≡ Ok text.now)
        (IsFaultOf (the_needed_text name.now (view object.now))) }
{
    match text_member(alloc, object, name)? {
        Some(text) => Ok(text),
        None => Err(wrong_form(alloc, name)),
    }
}

/// The whole number that the member of a name is, nothing where it is absent, or the fault that it is none.
pub fn whole_member(alloc: Global, object: &Value, name: &str) -> Result<Option<Whole>, MemberFault>
    ensures { MatchResult result
        (λ number. the_whole_member name.now (view object.now) ≡ Ok number)
        (IsFaultOf (the_whole_member name.now (view object.now))) }
{
    match member(object, name) {
        Some(found) => match as_whole(found) {
            Some(number) => Ok(Some(number)),
            None => Err(wrong_form(alloc, name)),
        },
        None => Ok(None),
    }
}

fn as_whole(value: &Value) -> Option<Whole>
    ensures { result ≡ the_whole (view value.now) }
{
    let number = value.as_number()?;
    if let Some(unsigned) = number.as_u64() {
        return Some(Whole::Unsigned(unsigned));
    }
    match number.as_i64() {
        Some(negative) => Some(Whole::Negative(negative)),
        None => None,
    }
}

/// The elements of the array that the member of a name is, nothing where it is absent, or the fault that it is none.
pub fn array_member<'v>(
    alloc: Global,
    object: &'v Value,
    name: &str,
) -> Result<Option<&'v [Value]>, MemberFault>
    ensures { MatchResult result
        (λ values. the_array_member name.now (view object.now) ≡ Ok (option_map (λ s. map view s.now) values))
        (IsFaultOf (the_array_member name.now (view object.now))) }
{
    match member(object, name) {
        Some(found) => match found.as_array() {
            Some(values) => Ok(Some(values.as_slice())),
            None => Err(wrong_form(alloc, name)),
        },
        None => Ok(None),
    }
}

/// The object that the member of a name is, nothing where it is absent, or the fault that it is none.
pub fn object_member<'v>(
    alloc: Global,
    object: &'v Value,
    name: &str,
) -> Result<Option<&'v Value>, MemberFault>
    ensures { MatchResult result
        (λ found. the_object_member name.now (view object.now) ≡ Ok (option_map (λ v. view v.now) found))
        (IsFaultOf (the_object_member name.now (view object.now))) }
{
    match member(object, name) {
        Some(found) => if found.is_object() {
            Ok(Some(found))
        } else {
            Err(wrong_form(alloc, name))
        },
        None => Ok(None),
    }
}
