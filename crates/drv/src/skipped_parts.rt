//! What follows the parts of a derivation that aren't examined.

ghost use Rattle.std.specs.Prelude.{◌≡◌, length};
ghost use Rattle.std.specs.Option.{option_copied};
ghost use Rattle.drv.specs.Reading.{without_value, rest_of, rest_of_items, string_end, list_end, further, variable_end};
ghost use Rattle.drv.specs.Reading.{input_end, hash_end, after_derive, inputs_end, process_end};

use crate::string::{after, skip_string};

/// What follows a comma and a string.
#[tactic(auto, unfolding(crate::specs::Reading::further))]
fn skip_further_string(text: &[u8]) -> Option<&[u8]>
    ensures { option_copied result ≡ further string_end text.now }
{
    skip_string(after(text, b',')?)
}

/// What follows a list of strings.
#[tactic(auto, unfolding(crate::specs::Reading::list_end, crate::specs::Reading::list_at))]
fn skip_strings(text: &[u8]) -> Option<&[u8]>
    ensures { option_copied result ≡ list_end string_end text.now }
{
    let items = after(text, b'[')?;
    if let Some(rest) = after(items, b']') {
        return Some(rest);
    }
    skip_more_strings(skip_string(items)?)
}

/// What follows further strings, each after a comma, and the closing bracket.
fn skip_more_strings(text: &[u8]) -> Option<&[u8]>
    ensures { option_copied result ≡ rest_of (rest_of_items (without_value string_end) (length text.now) text.now) }
{
    let mut rest = text;
    loop {
        if let Some(end) = after(rest, b']') {
            return Some(end);
        }
        let item = after(rest, b',')?;
        rest = skip_string(item)?;
    }
}

/// What follows a variable of the environment: its name and its value.
#[tactic(auto, unfolding(crate::specs::Reading::variable_end))]
fn skip_variable(text: &[u8]) -> Option<&[u8]>
    ensures { option_copied result ≡ variable_end text.now }
{
    let name = after(text, b'(')?;
    let rest = skip_string(name)?;
    let rest = skip_further_string(rest)?;
    after(rest, b')')
}

/// What follows an input: the path of a derivation, and names of outputs.
#[tactic(auto, unfolding(crate::specs::Reading::input_end, crate::specs::Reading::further))]
fn skip_input(text: &[u8]) -> Option<&[u8]>
    ensures { option_copied result ≡ input_end text.now }
{
    let path = after(text, b'(')?;
    let rest = skip_string(path)?;
    let names = after(rest, b',')?;
    let rest = skip_strings(names)?;
    after(rest, b')')
}

/// What follows a list of inputs.
#[tactic(auto, unfolding(crate::specs::Reading::list_end, crate::specs::Reading::list_at))]
fn skip_inputs(text: &[u8]) -> Option<&[u8]>
    ensures { option_copied result ≡ list_end input_end text.now }
{
    let items = after(text, b'[')?;
    if let Some(rest) = after(items, b']') {
        return Some(rest);
    }
    skip_more_inputs(skip_input(items)?)
}

/// What follows further inputs, each after a comma, and the closing bracket.
fn skip_more_inputs(text: &[u8]) -> Option<&[u8]>
    ensures { option_copied result ≡ rest_of (rest_of_items (without_value input_end) (length text.now) text.now) }
{
    let mut rest = text;
    loop {
        if let Some(end) = after(rest, b']') {
            return Some(end);
        }
        let item = after(rest, b',')?;
        rest = skip_input(item)?;
    }
}

/// What follows an environment: a list of variables.
#[tactic(auto, unfolding(crate::specs::Reading::list_end, crate::specs::Reading::list_at))]
fn skip_variables(text: &[u8]) -> Option<&[u8]>
    ensures { option_copied result ≡ list_end variable_end text.now }
{
    let items = after(text, b'[')?;
    if let Some(rest) = after(items, b']') {
        return Some(rest);
    }
    skip_more_variables(skip_variable(items)?)
}

/// What follows further variables, each after a comma, and the closing bracket.
fn skip_more_variables(text: &[u8]) -> Option<&[u8]>
    ensures { option_copied result ≡ rest_of (rest_of_items (without_value variable_end) (length text.now) text.now) }
{
    let mut rest = text;
    loop {
        if let Some(end) = after(rest, b']') {
            return Some(end);
        }
        let item = after(rest, b',')?;
        rest = skip_variable(item)?;
    }
}

/// What follows the method and the hash of an output.
#[tactic(auto, unfolding(crate::specs::Reading::hash_end))]
pub fn skip_hash(text: &[u8]) -> Option<&[u8]>
    ensures { option_copied result ≡ hash_end text.now }
{
    let rest = skip_further_string(text)?;
    let rest = skip_further_string(rest)?;
    after(rest, b')')
}

/// What follows the word that a derivation begins with, and its bracket.
#[tactic(auto, unfolding(crate::specs::Reading::after_derive))]
pub fn skip_derive(text: &[u8]) -> Option<&[u8]>
    ensures { option_copied result ≡ after_derive text.now }
{
    let rest = after(text, b'D')?;
    let rest = after(rest, b'e')?;
    let rest = after(rest, b'r')?;
    let rest = after(rest, b'i')?;
    let rest = after(rest, b'v')?;
    let rest = after(rest, b'e')?;
    after(rest, b'(')
}

/// What follows the inputs and the sources, with a comma before each.
#[tactic(auto, unfolding(crate::specs::Reading::inputs_end, crate::specs::Reading::further))]
pub fn skip_all_inputs(text: &[u8]) -> Option<&[u8]>
    ensures { option_copied result ≡ inputs_end text.now }
{
    let inputs = after(text, b',')?;
    let rest = skip_inputs(inputs)?;
    let sources = after(rest, b',')?;
    skip_strings(sources)
}

/// What follows the platform, the builder, the arguments and the environment, with a comma before each, and the
/// closing bracket.
#[tactic(auto, unfolding(crate::specs::Reading::process_end, crate::specs::Reading::further))]
pub fn skip_process(text: &[u8]) -> Option<&[u8]>
    ensures { option_copied result ≡ process_end text.now }
{
    let platform = after(text, b',')?;
    let rest = skip_string(platform)?;
    let builder = after(rest, b',')?;
    let rest = skip_string(builder)?;
    let arguments = after(rest, b',')?;
    let rest = skip_strings(arguments)?;
    let environment = after(rest, b',')?;
    let rest = skip_variables(environment)?;
    after(rest, b')')
}
