ghost use Rattle.std.specs.Prelude.{◌≡◌, ◌∷◌, true, Some, None, IfOk, IfErr};
ghost use Rattle.group_words.specs.Options.{are_allowed};
ghost use Rattle.group_words.specs.Orders as spec;
ghost use Rattle.group_words.specs.declared.order.WordsFault.TheVariants as faults;

use crate::given::{Given, are_allowed, number_for, number_given, suit_work};
use crate::order::{Order, WordsFault};
use crate::parsed::given_once;
use crate::setting::Setting;
use ds_base::{Sizes, TableId};
use number_text::number_of;
use std::alloc::Global;

// The sizes that were given, and the usual ones.
fn sizes_of(given: &[Given]) -> Sizes
    requires { are_allowed given.now ≡ true }
    ensures { result ≡ spec.sizes_of given.now }
{
    Sizes {
        members: number_for(Setting::Members, given) as u8,
        agents: number_for(Setting::Agents, given) as u8,
        locks: number_for(Setting::Locks, given) as u32,
        records: number_for(Setting::Records, given) as u32,
        cache: number_for(Setting::Cache, given) as u32,
        pool: number_for(Setting::Pool, given) as u16,
        pages: number_for(Setting::Pages, given) as u32,
    }
}

fn play_order(alloc: Global, words: &[String]) -> Result<Order, WordsFault>
    ensures order { IfOk result (λ order. spec.play_order (spec.texts words.now) ≡ Some order) }
    ensures refused { IfErr result (λ fault. fault ≡ faults.Refused → spec.play_order (spec.texts words.now) ≡ None) }
    ensures memory { IfErr result (λ fault. fault ≡ faults.NoMemory → spec.may_be_options (spec.texts words.now) ≡ true) }
{
    let given = given_once(alloc, words)?;
    if !are_allowed(&given) {
        return Err(WordsFault::Refused);
    }
    Ok(Order::Play {
        sizes: sizes_of(&given),
        seed: number_given(Setting::Seed, &given),
        trace: number_for(Setting::Trace, &given) == 1,
    })
}

fn show_order(words: &[String]) -> Option<Order>
    ensures { result ≡ spec.show_order (spec.texts words.now) }
{
    match words {
        [] => Some(Order::Show),
        _ => None,
    }
}

fn check_order(words: &[String]) -> Option<Order>
    ensures { result ≡ spec.check_order (spec.texts words.now) }
{
    match words {
        [] => Some(Order::Check),
        _ => None,
    }
}

// The table whose number is the only word.
fn table_in(words: &[String]) -> Option<TableId>
    ensures { result ≡ spec.table_in (spec.texts words.now) }
{
    match words {
        [number] => TableId::new(number_of(number.as_bytes())?),
        _ => None,
    }
}

fn copy_order(words: &[String]) -> Option<Order>
    ensures { result ≡ spec.copy_order (spec.texts words.now) }
{
    Some(Order::Copy {
        table: table_in(words)?,
    })
}

fn recover_order(words: &[String]) -> Option<Order>
    ensures { result ≡ spec.recover_order (spec.texts words.now) }
{
    Some(Order::Recover {
        table: table_in(words)?,
    })
}

fn make_order(words: &[String]) -> Option<Order>
    ensures { result ≡ spec.make_order (spec.texts words.now) }
{
    match words {
        [number] => Some(Order::Make {
            n: number_of(number.as_bytes())?,
        }),
        _ => None,
    }
}

// The work of this number with the options behind it.
fn work_with(alloc: Global, n: u64, words: &[String]) -> Result<Order, WordsFault>
    ensures order { IfOk result (λ order. spec.work_given n (spec.texts words.now) ≡ Some order) }
    ensures refused { IfErr result (λ fault. fault ≡ faults.Refused → spec.work_given n (spec.texts words.now) ≡ None) }
    ensures memory { IfErr result (λ fault. fault ≡ faults.NoMemory → spec.may_be_options (spec.texts words.now) ≡ true) }
{
    let given = given_once(alloc, words)?;
    if are_allowed(&given) && suit_work(&given) {
        Ok(Order::Work {
            n,
            sizes: sizes_of(&given),
        })
    } else {
        Err(WordsFault::Refused)
    }
}

fn work_order(alloc: Global, words: &[String]) -> Result<Order, WordsFault>
    ensures order { IfOk result (λ order. spec.work_order (spec.texts words.now) ≡ Some order) }
    ensures refused { IfErr result (λ fault. fault ≡ faults.Refused → spec.work_order (spec.texts words.now) ≡ None) }
    ensures memory { IfErr result (λ fault. fault ≡ faults.NoMemory → spec.may_be_work (spec.texts words.now) ≡ true) }
{
    let [number, options @ ..] = words else {
        return Err(WordsFault::Refused);
    };
    match number_of(number.as_bytes()) {
        Some(n) => work_with(alloc, n, options),
        None => Err(WordsFault::Refused),
    }
}

// The order of a command with the words behind it.
fn order_under(alloc: Global, command: &[u8], words: &[String]) -> Result<Order, WordsFault>
    ensures order { IfOk result (λ order. spec.order_under command.now (spec.texts words.now) ≡ Some order) }
    ensures refused { IfErr result (λ fault. fault ≡ faults.Refused → spec.order_under command.now (spec.texts words.now) ≡ None) }
    ensures memory { IfErr result (λ fault. fault ≡ faults.NoMemory → spec.may_have_options (command.now ∷ spec.texts words.now) ≡ true) }
{
    if command == b"play".as_slice() {
        play_order(alloc, words)
    } else if command == b"show".as_slice() {
        show_order(words).ok_or(WordsFault::Refused)
    } else if command == b"make".as_slice() {
        make_order(words).ok_or(WordsFault::Refused)
    } else if command == b"work".as_slice() {
        work_order(alloc, words)
    } else if command == b"check".as_slice() {
        check_order(words).ok_or(WordsFault::Refused)
    } else if command == b"copy".as_slice() {
        copy_order(words).ok_or(WordsFault::Refused)
    } else if command == b"recover".as_slice() {
        recover_order(words).ok_or(WordsFault::Refused)
    } else {
        Err(WordsFault::Refused)
    }
}

/// The order that the words of a command line give, without the program's name.
///
/// The first word is the command:
///
/// - `play` with options: a script is played;
/// - `show` with nothing more;
/// - `make N` with nothing more;
/// - `work N` with options: measured work;
/// - `check` with nothing more: whether the disk is sound;
/// - `copy T` with nothing more: an image of a table T from 1 to 64;
/// - `recover T` with nothing more: the table is made anew from an image.
///
/// Options stand at most once each, in any order, as `--name N` or as `--name=N`: `--members` 1 to 32 (4 where it
/// is not given), `--agents` 1 to 16 (8), `--locks` 1 to 65,536 (4,096), `--records` 2 to 65,536 (16,384), `--cache`
/// 4 for each member to 65,536 (1,024), `--pool` 4 to 4,096 (256), `--pages` 1 to 65,536 (4,096), and for `play`
/// alone `--seed` 0 to 2^64 - 1 (none) and `--trace` without a number. Measured work has 4 members.
/// A number is 1 to 20 decimal digits, and is below 2^64.
pub fn read_words(alloc: Global, words: &[String]) -> Result<Order, WordsFault>
    ensures order { IfOk result (λ order. spec.order_of (spec.texts words.now) ≡ Some order) }
    ensures refused { IfErr result (λ fault. fault ≡ faults.Refused → spec.order_of (spec.texts words.now) ≡ None) }
    ensures memory { IfErr result (λ fault. fault ≡ faults.NoMemory → spec.may_have_options (spec.texts words.now) ≡ true) }
{
    match words {
        [command, rest @ ..] => order_under(alloc, command.as_bytes(), rest),
        [] => Err(WordsFault::Refused),
    }
}
