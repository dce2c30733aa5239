ghost use Rattle.std.specs.Prelude.{◌≡◌, ◌^◌, true, List, ℕ, Option, Some, option_map, map, length, string_bytes, IfOk, IsSome};
ghost use Rattle.std.specs.Char.{is_ascii_digit};
ghost use Rattle.std.specs.List.{list_all};
ghost use Rattle.std.specs.Option.{ForSome, is_some};
ghost use Rattle.hw_driver.specs.Given.{HasBound, HasHeap, HasRing, IsGiven};
ghost use Rattle.hw_driver.specs.Line.{is_file, is_number, tag_word, tag_list, is_bound, is_ring, is_heap, number_of, step_bound, ring_size, heap_size, add_tags, add_seed, add_steps, add_ring, add_heap, add_limit, add_option, options_after, none_given, line_with, line};
ghost use Rattle.hw_driver.specs.LineView.{given_view, line_view, texts};

use crate::command::{Command, Given, TagWords};
use hw_base::{ByteList, MOST_HEAP, MOST_RING, MOST_STEPS, MOST_WORDS, OutOfMemory};
use std::alloc::Global;

fn is_file(name: &str) -> bool
    ensures { result ≡ is_file name.now }
{
    !name.as_bytes().starts_with(b"-")
}

fn is_all_digits(text: &str) -> bool
    ensures { result ≡ list_all is_ascii_digit text.now }
{
    text.bytes().all(|byte| byte.is_ascii_digit())
}

fn is_number(text: &str) -> bool
    ensures { result ≡ is_number text.now }
{
    !text.is_empty() && is_all_digits(text)
}

// A number from 0 to 255.
#[tactic(auto, unfolding(crate::specs::Line::tag_word))]
fn tag_word(text: &str) -> Option<u8>
    ensures { result ≡ tag_word text.now }
{
    if !is_number(text) {
        return None;
    }
    text.parse::<u8>().ok()
}

fn is_bound(steps: u64) -> bool
    ensures { result ≡ is_bound steps }
{
    1 <= steps && steps <= MOST_STEPS
}

// A number below 2^64.
#[tactic(auto, unfolding(crate::specs::Line::number_of))]
fn number_of(text: &str) -> Option<u64>
    ensures { result ≡ number_of text.now }
{
    if !is_number(text) {
        return None;
    }
    text.parse::<u64>().ok()
}

// A number of steps, from 1 to the greatest.
fn step_bound(text: &str) -> Option<u64>
    ensures value { result ≡ step_bound text.now }
    ensures range { HasBound result }
{
    let steps = number_of(text)?;
    if is_bound(steps) { Some(steps) } else { None }
}

fn is_ring(ring: u64) -> bool
    ensures { result ≡ is_ring ring }
{
    1 <= ring && ring <= MOST_RING as u64
}

// A number of ended frames and freed blocks.
fn ring_size(text: &str) -> Option<u32>
    ensures value { result ≡ ring_size text.now }
    ensures range { HasRing result }
{
    let ring = number_of(text)?;
    if is_ring(ring) {
        Some(ring as u32)
    } else {
        None
    }
}

fn is_heap(heap: u64) -> bool
    ensures { result ≡ is_heap heap }
{
    heap % 16 == 0 && (16 <= heap && heap <= MOST_HEAP)
}

// A size of the heap in bytes.
fn heap_size(text: &str) -> Option<u64>
    ensures value { result ≡ heap_size text.now }
    ensures range { HasHeap result }
{
    let heap = number_of(text)?;
    if is_heap(heap) { Some(heap) } else { None }
}

// ---- lists of tag words

/// Whether a text is a list of tag words.
#[tactic(auto, unfolding(crate::specs::Line::tag_list))]
fn is_tag_list(text: &str) -> bool
    ensures { result ≡ is_some (tag_list text.now) }
{
    let mut rest = text;
    let mut left = MOST_WORDS;
    while let Some((first, more)) = rest.split_once(',') {
        if left <= 1 || tag_word(first).is_none() {
            return false;
        }
        left -= 1;
        rest = more;
    }
    tag_word(rest).is_some()
}

/// The list of tag words that a text is.
#[tactic(auto, unfolding(crate::specs::Line::tag_list))]
pub fn read_tag_list(alloc: Global, text: &str) -> Result<ByteList, OutOfMemory>
    requires { IsSome (tag_list text.now) }
    ensures { IfOk result (λ list. tag_list text.now ≡ Some list) }
{
    let mut list = ByteList::new(alloc);
    let mut rest = text;
    while let Some((first, more)) = rest.split_once(',') {
        list.push(tag_word(first).unwrap())?;
        rest = more;
    }
    list.push(tag_word(rest).unwrap())?;
    Ok(list)
}

// ---- options

fn add_tags<'a>(given: Given<'a>, value: &'a str) -> Option<Given<'a>>
    requires { IsGiven given }
    ensures value { option_map given_view result ≡ add_tags (given_view given.entry) value.now }
    ensures range { ForSome result IsGiven }
{
    match given.tags {
        None => {
            if !is_tag_list(value) {
                return None;
            }
            let tags = Some(TagWords::List(value));
            Some(Given { tags, ..given })
        }
        Some(_) => None,
    }
}

fn add_seed<'a>(given: Given<'a>, value: &str) -> Option<Given<'a>>
    requires { IsGiven given }
    ensures value { option_map given_view result ≡ add_seed (given_view given.entry) value.now }
    ensures range { ForSome result IsGiven }
{
    match given.tags {
        None => {
            let tags = Some(TagWords::Seed(number_of(value)?));
            Some(Given { tags, ..given })
        }
        Some(_) => None,
    }
}

fn add_steps<'a>(given: Given<'a>, value: &str) -> Option<Given<'a>>
    requires { IsGiven given }
    ensures value { option_map given_view result ≡ add_steps (given_view given.entry) value.now }
    ensures range { ForSome result IsGiven }
{
    match given.steps {
        None => {
            let steps = Some(step_bound(value)?);
            Some(Given { steps, ..given })
        }
        Some(_) => None,
    }
}

fn add_ring<'a>(given: Given<'a>, value: &str) -> Option<Given<'a>>
    requires { IsGiven given }
    ensures value { option_map given_view result ≡ add_ring (given_view given.entry) value.now }
    ensures range { ForSome result IsGiven }
{
    match given.ring {
        None => {
            let ring = Some(ring_size(value)?);
            Some(Given { ring, ..given })
        }
        Some(_) => None,
    }
}

fn add_heap<'a>(given: Given<'a>, value: &str) -> Option<Given<'a>>
    requires { IsGiven given }
    ensures value { option_map given_view result ≡ add_heap (given_view given.entry) value.now }
    ensures range { ForSome result IsGiven }
{
    match given.heap {
        None => {
            let heap = Some(heap_size(value)?);
            Some(Given { heap, ..given })
        }
        Some(_) => None,
    }
}

// An option of a run of the machine with its value beside others, if it is one and isn't given yet.
#[tactic(auto, unfolding(crate::specs::Line::add_limit))]
fn add_limit<'a>(given: Given<'a>, name: &str, value: &str) -> Option<Given<'a>>
    requires { IsGiven given }
    ensures value { option_map given_view result ≡ add_limit (given_view given.entry) name.now value.now }
    ensures range { ForSome result IsGiven }
{
    if name == "--steps" {
        add_steps(given, value)
    } else if name == "--ring" {
        add_ring(given, value)
    } else if name == "--heap" {
        add_heap(given, value)
    } else {
        None
    }
}

// An option with its value beside others, if it is one and isn't given yet.
#[tactic(auto, unfolding(crate::specs::Line::add_option))]
fn add_option<'a>(given: Given<'a>, name: &str, value: &'a str) -> Option<Given<'a>>
    requires { IsGiven given }
    ensures value { option_map given_view result ≡ add_option (given_view given.entry) name.now value.now }
    ensures range { ForSome result IsGiven }
{
    if name == "--tags" {
        add_tags(given, value)
    } else if name == "--seed" {
        add_seed(given, value)
    } else {
        add_limit(given, name, value)
    }
}

// The options that words after FILE are.
fn options_of(words: &[String]) -> Option<Given<'_>>
    ensures value { option_map given_view result ≡ options_after (texts words.now) (Some none_given) }
    ensures range { ForSome result IsGiven }
{
    let mut given = Given {
        tags: None,
        steps: None,
        ring: None,
        heap: None,
    };
    let mut rest = words;
    while let [name, value, after @ ..] = rest {
        given = add_option(given, name.as_str(), value.as_str())?;
        rest = after;
    }
    if rest.is_empty() { Some(given) } else { None }
}

#[tactic(auto, unfolding(crate::specs::Line::line_with))]
fn line_with<'a>(mode: &str, file: &'a str, words: &'a [String]) -> Option<Command<'a>>
    ensures { option_map line_view result ≡ line_with mode.now file.now (options_after (texts words.now) (Some none_given)) }
{
    if mode == "run" && is_file(file) {
        let given = options_of(words)?;
        Some(Command { file, given })
    } else {
        None
    }
}

/// The command that the words are, or none.
pub fn line_of(words: &[String]) -> Option<Command<'_>>
    ensures { option_map line_view result ≡ line (texts words.now) }
{
    match words {
        [mode, file, options @ ..] => line_with(mode.as_str(), file.as_str(), options),
        _ => None,
    }
}
