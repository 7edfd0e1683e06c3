ghost use Rattle.std.specs.Prelude.{◌≡◌, IfOk, MatchResult, Ok, Some, None, map, option_map, option_and_then};
ghost use Rattle.serde_json.specs.View.{view, members_view};
ghost use Rattle.gp_json.specs.Steps.{each};
ghost use Rattle.gp_json.specs.Members.{IsFaultOf, as_elements};
ghost use Rattle.gp_json.specs.Fields.{value_of, name_of, field_of as the_field_of, fields_in as the_fields_in, fields_of, fields_from, text_pair as the_text_pair, pair_field as the_pair_field, member_field as the_member_field};

use crate::fault::{MemberFault, wrong_form};
use crate::members::member;
use gp_plain::{Body, Field, Fields, List};
use http_header::{HeaderName, HeaderNameError, HeaderValue, HeaderValueError};
use serde_json::{Map, Value};
use std::alloc::{AllocError, Global};

const HEADERS: &str = "headers";

/// The fields that the member `headers` gives, in order; none where it is absent.
#[tactic(auto, unfolding(crate::specs::Fields::fields_of))]
pub(crate) fn read_fields(alloc: Global, object: &Value) -> Result<Fields, MemberFault>
    ensures { MatchResult result
        (λ fields. fields_of (view object.now) ≡ Ok fields)
        (IsFaultOf (fields_of (view object.now))) }
{
    match member(object, HEADERS) {
        Some(headers) => fields_in(alloc, headers),
        None => Ok(List::new(alloc)),
    }
}

fn fields_in(alloc: Global, headers: &Value) -> Result<Fields, MemberFault>
    ensures { MatchResult result
        (λ fields. the_fields_in (view headers.now) ≡ Ok fields)
        (IsFaultOf (the_fields_in (view headers.now))) }
{
    match headers.as_object() {
        Some(members) => fields_of_members(alloc, members),
        None => match headers.as_array() {
            Some(pairs) => fields_of_pairs(alloc, pairs.as_slice()),
            None => Err(wrong_form(alloc, HEADERS)),
        },
    }
}

/// The fields of an object's members, but for those that are null.
fn fields_of_members(alloc: Global, members: &Map<String, Value>) -> Result<Fields, MemberFault>
    ensures { MatchResult result
        (λ fields. fields_from (Some (members_view members.now.entries)) None ≡ Ok fields)
        (IsFaultOf (fields_from (Some (members_view members.now.entries)) None)) }
{
    let mut fields = Vec::new(alloc);
    for (name, value) in members {
        if !value.is_null() {
            fields.push(member_field(alloc, name.as_str(), value)?)?;
        }
    }
    Ok(List::from_vec(fields))
}

/// The fields of an array's pairs.
fn fields_of_pairs(alloc: Global, pairs: &[Value]) -> Result<Fields, MemberFault>
    ensures { MatchResult result
        (λ fields. each the_pair_field (map view pairs.now) ≡ Ok fields)
        (IsFaultOf (each the_pair_field (map view pairs.now))) }
{
    let mut fields = Vec::new(alloc);
    for pair in pairs {
        fields.push(pair_field(alloc, pair)?)?;
    }
    Ok(List::from_vec(fields))
}

fn member_field(alloc: Global, name: &str, value: &Value) -> Result<Field, MemberFault>
    ensures { MatchResult result
        (λ field. the_member_field (name.now, view value.now) ≡ Ok field)
        (IsFaultOf (the_member_field (name.now, view value.now))) }
{
    if let Some(text) = value.as_str() {
        if let Some(field) = field_of(alloc, name, text)? {
            return Ok(field);
        }
    }
    Err(wrong_form(alloc, HEADERS))
}

fn pair_field(alloc: Global, pair: &Value) -> Result<Field, MemberFault>
    ensures { MatchResult result
        (λ field. the_pair_field (view pair.now) ≡ Ok field)
        (IsFaultOf (the_pair_field (view pair.now))) }
{
    if let Some((name, value)) = text_pair(pair) {
        if let Some(field) = field_of(alloc, name, value)? {
            return Ok(field);
        }
    }
    Err(wrong_form(alloc, HEADERS))
}

/// The two texts of an array that has nothing else.
fn text_pair(pair: &Value) -> Option<(&str, &str)>
    ensures { option_map (λ p. (p.0.now, p.1.now)) result ≡ option_and_then the_text_pair (as_elements (view pair.now)) }
{
    let parts = pair.as_array()?;
    if parts.len() != 2 {
        return None;
    }
    Some((parts[0].as_str()?, parts[1].as_str()?))
}

/// The field of a name and a value, where they may be such.
#[tactic(auto, unfolding(crate::specs::Fields::field_of))]
fn field_of(alloc: Global, name: &str, value: &str) -> Result<Option<Field>, AllocError>
    ensures { IfOk result (λ field. field ≡ the_field_of name.now value.now) }
{
    let name = match field_name(alloc, name)? {
        Some(name) => name,
        None => return Ok(None),
    };
    match field_value(alloc, value)? {
        Some(value) => Ok(Some(Field { name, value })),
        None => Ok(None),
    }
}

/// The text in lower case, where it may be the name of a field (RFC 9110, section 5.1).
fn field_name(alloc: Global, text: &str) -> Result<Option<Body>, AllocError>
    ensures { IfOk result (λ name. name ≡ name_of text.now) }
{
    match HeaderName::from_bytes(alloc, text.as_bytes()) {
        Ok(name) => Ok(Some(Body::new(alloc, name.as_bytes())?)),
        Err(HeaderNameError::Invalid) => Ok(None),
        Err(HeaderNameError::OutOfMemory) => Err(AllocError),
    }
}

/// The text, where it may be the value of a field (RFC 9110, section 5.5).
pub(crate) fn field_value(alloc: Global, text: &str) -> Result<Option<Body>, AllocError>
    ensures { IfOk result (λ value. value ≡ value_of text.now) }
{
    match HeaderValue::from_bytes(alloc, text.as_bytes()) {
        Ok(value) => Ok(Some(Body::new(alloc, value.as_bytes())?)),
        Err(HeaderValueError::Invalid) => Ok(None),
        Err(HeaderValueError::OutOfMemory) => Err(AllocError),
    }
}
