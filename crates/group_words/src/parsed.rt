//! The options as clap parses them.

ghost use Rattle.std.specs.Prelude.{◌≡◌, Some, None, true, false, IfOk, IfErr};
ghost use Rattle.std.specs.List.{list_all};
ghost use Rattle.clap.specs.Words.{app_of, found_of, rows_of, rule_of};
ghost use Rattle.group_words.specs.Options as options;
ghost use Rattle.group_words.specs.Parsed as spec;
ghost use Rattle.group_words.specs.Orders.{may_be_options, texts};
ghost use Rattle.group_words.specs.declared.order.WordsFault.TheVariants as faults;

use crate::given::Given;
use crate::order::WordsFault;
use crate::setting::{Setting, setting_named};
use clap::parser::ValueSource;
use clap::{Arg, ArgAction, ArgMatches, Command};
use number_text::number_of;
use std::alloc::{AllocError, Global};

// An option with a value, which clap takes as a text.
fn option_named<'a>(alloc: Global, name: &'a str) -> Arg<'a>
    ensures rule { rule_of result ≡ spec.option_rule name.entry.now }
    ensures local { result.global ≡ false }
{
    Arg::new(alloc, name).long(name)
}

// An option without a value.
fn flag_named<'a>(alloc: Global, name: &'a str) -> Arg<'a>
    ensures rule { rule_of result ≡ spec.flag_rule name.entry.now }
    ensures local { result.global ≡ false }
{
    option_named(alloc, name).action(ArgAction::SetTrue)
}

// The command of which clap parses the words. It refuses an option that is given twice, one that it is not told of,
// help and the version among them, and one without its value.
fn options_command<'a>(alloc: Global) -> Result<Command<'a>, AllocError>
    ensures { IfOk result (λ command. app_of command ≡ spec.options_command) }
{
    Command::new(alloc, "options")
        .no_binary_name(true)
        .disable_help_flag(true)
        .arg(option_named(alloc, "members"))?
        .arg(option_named(alloc, "agents"))?
        .arg(option_named(alloc, "locks"))?
        .arg(option_named(alloc, "records"))?
        .arg(option_named(alloc, "cache"))?
        .arg(option_named(alloc, "pool"))?
        .arg(option_named(alloc, "pages"))?
        .arg(option_named(alloc, "seed"))?
        .arg(flag_named(alloc, "trace"))
}

// The word begins with `--` and a name, or with no hyphen: it is neither a short option, of which there are none,
// nor `--`, which clap would take as the end of the options.
fn is_well_formed(word: &[u8]) -> bool
    ensures { result ≡ spec.is_well_formed word.now }
{
    match word {
        [b'-', b'-', _, ..] => true,
        [b'-', ..] => false,
        _ => true,
    }
}

fn are_well_formed(words: &[String]) -> bool
    ensures { result ≡ list_all spec.is_well_formed (texts words.now) }
{
    for word in words {
        if !is_well_formed(word.as_bytes()) {
            return false;
        }
    }
    true
}

fn with_number(setting: Setting, text: &str) -> Option<Given>
    ensures { result ≡ options.with_number setting text.now }
{
    let number = number_of(text.as_bytes())?;
    Some(Given { setting, number })
}

// Whether the words gave the option of this name.
#[tactic(auto, using(crate::proofs::Rows::source_by_rows))]
fn is_by_words(matches: &ArgMatches<'_>, name: &str) -> bool
    ensures { result ≡ spec.is_by_words (spec.source_of name.now (rows_of (found_of matches.now))) }
{
    match matches.value_source(name) {
        Some(ValueSource::CommandLine) => true,
        Some(ValueSource::DefaultValue) | None => false,
    }
}

// The option of this name, by the value that was found.
#[tactic(auto, using(crate::proofs::Rows::first_by_rows))]
fn option_in(matches: &ArgMatches<'_>, name: &str) -> Option<Given>
    ensures { result ≡ spec.option_in (rows_of (found_of matches.now)) name.now }
{
    if name == Setting::Trace.name() {
        return Some(Given {
            setting: Setting::Trace,
            number: 1,
        });
    }
    let setting = setting_named(name)?;
    with_number(setting, matches.get_str(name)?)
}

// The options that were found, in the order of the words.
fn options_in(alloc: Global, matches: &ArgMatches<'_>) -> Result<Vec<Given>, WordsFault>
    ensures given { IfOk result (λ given. spec.parsed (rows_of (found_of matches.now)) ≡ Some given.items) }
    ensures refused { IfErr result (λ fault. fault ≡ faults.Refused → spec.parsed (rows_of (found_of matches.now)) ≡ None) }
{
    let mut given = Vec::new(alloc);
    for name in matches.ids() {
        if is_by_words(matches, name) {
            let Some(option) = option_in(matches, name) else {
                return Err(WordsFault::Refused);
            };
            given.push(option)?;
        }
    }
    Ok(given)
}

// The options by clap, of words that it takes in no other way than is allowed here.
fn options_by_clap(alloc: Global, words: &[String]) -> Result<Vec<Given>, WordsFault>
    requires { list_all spec.is_well_formed (texts words.now) ≡ true }
    ensures given { IfOk result (λ given. spec.given_once (texts words.now) ≡ Some given.items) }
    ensures refused { IfErr result (λ fault. fault ≡ faults.Refused → spec.given_once (texts words.now) ≡ None) }
{
    let command = options_command(alloc)?;
    let matches = command.try_get_matches_from(words)?;
    options_in(alloc, &matches)
}

/// The options that the words give, each once, in their order.
#[tactic(auto, using(crate::proofs::Formed::malformed_give_none, crate::proofs::Formed::no_words, crate::proofs::Formed::are_once_given, crate::proofs::Formed::may_be))]
pub fn given_once(alloc: Global, words: &[String]) -> Result<Vec<Given>, WordsFault>
    ensures given { IfOk result (λ given. spec.given_once (texts words.now) ≡ Some given.items) }
    ensures refused { IfErr result (λ fault. fault ≡ faults.Refused → spec.given_once (texts words.now) ≡ None) }
    ensures once { IfOk result (λ given. options.are_once given.items ≡ true) }
    ensures memory { IfErr result (λ fault. fault ≡ faults.NoMemory → may_be_options (texts words.now) ≡ true) }
{
    if words.is_empty() {
        return Ok(Vec::new(alloc));
    }
    if !are_well_formed(words) {
        return Err(WordsFault::Refused);
    }
    options_by_clap(alloc, words)
}
