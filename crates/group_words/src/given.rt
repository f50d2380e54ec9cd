//! The options that the words give.

ghost use Rattle.std.specs.Prelude.{◌≡◌, true};
ghost use Rattle.std.specs.List.{list_all};
ghost use Rattle.group_words.specs.Options as spec;

use crate::setting::Setting;

/// An option that was given, and its number. That of `--trace` is 1.
#[derive(Clone, Copy, Debug, PartialEq, Eq)]
pub struct Given {
    pub setting: Setting,
    pub number: u64,
}

fn is_for(setting: Setting, given: &Given) -> bool
    ensures { result ≡ spec.is_for setting given.now }
{
    given.setting == setting
}

/// The number given for an option.
pub fn number_given(setting: Setting, given: &[Given]) -> Option<u64>
    ensures { result ≡ spec.number_given setting given.now }
{
    given
        .iter()
        .find(|option| is_for(setting, option))
        .map(|option| option.number)
}

/// The number of an option, given or not.
pub fn number_for(setting: Setting, given: &[Given]) -> u64
    ensures { result ≡ spec.number_for setting given.now }
{
    number_given(setting, given).unwrap_or(setting.usual())
}

fn is_in_range(given: &Given) -> bool
    ensures { result ≡ spec.is_in_range given.now }
{
    let (least, greatest) = given.setting.range();
    least <= given.number && given.number <= greatest
}

fn are_in_range(given: &[Given]) -> bool
    ensures { result ≡ list_all spec.is_in_range given.now }
{
    given.iter().all(is_in_range)
}

/// Whether each option has a number of its range, and the cache is large enough for the members.
pub fn are_allowed(given: &[Given]) -> bool
    requires { spec.are_once given.now ≡ true }
    ensures { result ≡ spec.are_allowed given.now }
{
    are_in_range(given)
        && 4 * number_for(Setting::Members, given) <= number_for(Setting::Cache, given)
}

fn suits_work(given: &Given) -> bool
    ensures { result ≡ spec.suits_work given.now }
{
    match given.setting {
        Setting::Seed | Setting::Trace => false,
        Setting::Members => given.number == 4,
        _ => true,
    }
}

/// Whether measured work takes the options.
pub fn suit_work(given: &[Given]) -> bool
    ensures { result ≡ list_all spec.suits_work given.now }
{
    given.iter().all(suits_work)
}
