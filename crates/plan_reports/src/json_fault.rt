// A fault as JSON.
ghost use Rattle.std.specs.Prelude.{◌≡◌, ◌++◌, [], IfOk, OnOk, ◌||◌, drop, false, get_or, map};
ghost use Rattle.json.specs.Tree.{json_tokens};
ghost use Rattle.report_entries.specs.EntryJson.{IsJsonText};
ghost use Rattle.plan_reports.specs.FaultJson.{code_members, fault_json, fault_members, names_half, reason_json, reason_members, sentence_members, value_json, values_from, values_json, values_members};
ghost use Rattle.report_entries.specs.JsonTrees.{all_member_tokens, all_tokens};

use report_entries::json_document::{begin, end};
use report_entries::{JsonWriter, TextIn};
use std::alloc::{AllocError, Global};
use text_lines::Word;

/// The code of a fault, its values, and what a person is told of it, as JSON. The code is the first of the words.
pub fn fault_json(alloc: Global, words: &[Word], sentence: &str) -> Result<Vec<u8>, AllocError>
    ensures { IfOk result (λ text.
        IsJsonText (fault_json (map (λ word. word.items) words.now) sentence.now) text.items) }
{
    let mut out = begin(alloc)?;
    put_fault(&mut out, words, sentence)?;
    end(out)
}

#[tactic(auto, unfolding(crate::specs::FaultJson::fault_members))]
pub fn put_fault(out: &mut JsonWriter, words: &[Word], sentence: &str) -> Result<(), AllocError>
    ensures { OnOk result (out.new
        ≡ out.old ++ all_member_tokens (fault_members (map (λ word. word.items) words.now) sentence.now)) }
{
    put_reason(out, "fault", words, sentence)
}

/// The same under a key.
#[tactic(auto, unfolding(crate::specs::FaultJson::reason_members))]
pub fn put_reason(
    out: &mut JsonWriter,
    key: &str,
    words: &[Word],
    sentence: &str,
) -> Result<(), AllocError>
    ensures { OnOk result (out.new
        ≡ out.old ++ all_member_tokens (reason_members key.now (map (λ word. word.items) words.now) sentence.now)) }
{
    out.key(key)?;
    put_words(out, words, sentence)
}

fn put_words(out: &mut JsonWriter, words: &[Word], sentence: &str) -> Result<(), AllocError>
    ensures { OnOk result (out.new
        ≡ out.old ++ json_tokens (reason_json (map (λ word. word.items) words.now) sentence.now)) }
{
    out.begin_object()?;
    put_code(out, words)?;
    put_values(out, words)?;
    put_sentence(out, sentence)?;
    out.end_object()
}

#[tactic(auto, unfolding(crate::specs::FaultJson::code_members, report_entries::specs::EntryJson::string_members))]
fn put_code(out: &mut JsonWriter, words: &[Word]) -> Result<(), AllocError>
    ensures { OnOk result (out.new
        ≡ out.old ++ all_member_tokens (code_members (map (λ word. word.items) words.now))) }
{
    out.key("code")?;
    out.shown(TextIn(code_of(words)))
}

fn code_of(words: &[Word]) -> &[u8]
    ensures { result.now ≡ get_or (map (λ word. word.items) words.now) 0 [] }
{
    match words.first() {
        Some(word) => word.as_slice(),
        None => &[],
    }
}

#[tactic(auto, unfolding(crate::specs::FaultJson::values_members))]
fn put_values(out: &mut JsonWriter, words: &[Word]) -> Result<(), AllocError>
    ensures { OnOk result (out.new
        ≡ out.old ++ all_member_tokens (values_members (map (λ word. word.items) words.now))) }
{
    out.key("values")?;
    put_value_list(out, values_of(words))
}

fn values_of(words: &[Word]) -> &[Word]
    ensures { map (λ word. word.items) result.now ≡ drop 1 (map (λ word. word.items) words.now) }
{
    if words.is_empty() { words } else { &words[1..] }
}

fn put_value_list(out: &mut JsonWriter, values: &[Word]) -> Result<(), AllocError>
    ensures { OnOk result (out.new
        ≡ out.old ++ json_tokens (values_json (map (λ word. word.items) values.now))) }
{
    out.begin_array()?;
    put_each_value(out, values)?;
    out.end_array()
}

fn put_each_value(out: &mut JsonWriter, values: &[Word]) -> Result<(), AllocError>
    ensures { OnOk result (out.new
        ≡ out.old ++ all_tokens (values_from false (map (λ word. word.items) values.now))) }
{
    let mut in_key = false;
    for word in values {
        in_key = is_in_key(in_key, word.as_slice());
        put_value(out, in_key, word.as_slice())?;
    }
    Ok(())
}

#[tactic(auto, unfolding(crate::specs::FaultJson::value_json))]
fn put_value(out: &mut JsonWriter, in_key: bool, word: &[u8]) -> Result<(), AllocError>
    ensures { OnOk result (out.new ≡ out.old ++ json_tokens (value_json in_key word.now)) }
{
    if in_key {
        out.shown(TextIn(word))
    } else {
        out.scalar(TextIn(word))
    }
}

// Whether the word is of a half's key, if the one before it is or not.
fn is_in_key(follows_key: bool, word: &[u8]) -> bool
    ensures { result ≡ (follows_key || names_half word.now) }
{
    follows_key || names_half(word)
}

// Whether it is the first word of a half's key.
fn names_half(word: &[u8]) -> bool
    ensures { result ≡ names_half word.now }
{
    word == b"lower".as_slice() || word == b"upper".as_slice()
}

#[tactic(auto, unfolding(crate::specs::FaultJson::sentence_members, report_entries::specs::EntryJson::string_members))]
fn put_sentence(out: &mut JsonWriter, sentence: &str) -> Result<(), AllocError>
    ensures { OnOk result (out.new ≡ out.old ++ all_member_tokens (sentence_members sentence.now)) }
{
    out.key("sentence")?;
    out.string(sentence)
}
