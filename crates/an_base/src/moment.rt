ghost use Rattle.std.specs.Prelude.{◌≡◌, ◌↔◌, ◌+◌, ◌-◌, ◌<◌, ◌≤◌, ◌&&◌, if◌then◌else◌, length};
ghost use Rattle.std.specs.Prelude.{IsTrue, List, ℕ, ℤ, Ok, IfOk, IfSome, IsSome};
ghost use Rattle.std.specs.Str.{IsAscii};
ghost use Rattle.std.specs.Char.{is_ascii_digit};
ghost use Rattle.an_base.specs.Moment.{has_form, has_digits, fits, number_at, date_time_in};
ghost use Rattle.an_base.specs.Moment.{is_date, is_time, days_before, moment_at, moment_of};
ghost use Rattle.an_base.specs.Moment.{date_time_text, date_time_after, moment_text, IsMoment};
ghost use Rattle.an_base.specs.Moment.{is_moment};

use crate::text::Text;
use jiff_core::civil::Date;
use std::alloc::{AllocError, Global};
use std::marker::Model;

/// Why a text is no moment.
#[derive(Clone, Copy, Debug, PartialEq, Eq)]
pub enum MomentError {
    /// It isn't 20 bytes with digits and signs in their places.
    Form,
    /// There is no such date or time; second 60 is none.
    Range,
}

/// A date and a time of day, which may be none of the calendar.
#[derive(Clone, Copy)]
struct DateTime {
    year: u16,
    month: u8,
    day: u8,
    hour: u8,
    minute: u8,
    second: u8,
}

/// A whole number of seconds since 1970-01-01T00:00:00Z, from 0000-01-01T00:00:00Z to
/// 9999-12-31T23:59:59Z. Contracts see the number.
#[derive(Clone, Copy, Debug, PartialEq, Eq, PartialOrd, Ord)]
pub struct Moment {
    seconds: i64,
}

impl Model for Moment {
    ghost use Rattle.std.specs.Prelude.{ℤ};
    ghost use Rattle.an_base.specs.Moment.{IsMoment};

    ghost Value = { ℤ };

    ghost view = { λ m. m.seconds };

    ghost invariant = { λ m. IsMoment m.seconds };

    ghost inverse = { λ z. record { seconds = z } };
}

impl Moment {
    ghost use Rattle.std.specs.Int.{int_max};
    ghost use Rattle.an_base.specs.Moment.{IsMoment};

    /// The moment so many seconds after 1970-01-01T00:00:00Z, if it is one.
    pub fn new(seconds: i64) -> Option<Moment>
        ensures range { IsSome result ↔ IsMoment seconds }
        ensures value { IfSome result (λ m. m ≡ seconds) }
    {
        if seconds < FIRST || seconds > LAST {
            return None;
        }
        Some(Moment { seconds })
    }

    /// The seconds since 1970-01-01T00:00:00Z.
    pub fn seconds(self) -> i64
        ensures value { result ≡ self }
        ensures range { IsMoment result }
    {
        self.seconds
    }

    /// The later of two moments.
    pub fn later(self, other: Moment) -> Moment
        ensures { result ≡ int_max self other }
    {
        if other.seconds < self.seconds {
            self
        } else {
            other
        }
    }
}

/// A law: `is_moment` tells the moments.
#[tactic(auto, using(crate::proofs::MomentTest::told))]
pub fn moments_are_told()
    ensures told { (m : ℤ) → IsTrue (is_moment m) ↔ IsMoment m }
{}

/// Each moment is read again from its text.
pub fn moments_read_back()
    ensures { (m : ℤ) → IsMoment m → moment_of (moment_text m) ≡ Ok m }
{}

/// What is read is a moment, and the text that it was read from is its only one.
pub fn moment_texts_are_unique()
    ensures moment { (text : List ℕ) (m : ℤ) → moment_of text ≡ Ok m → IsMoment m }
    ensures unique { (text : List ℕ) (m : ℤ) → moment_of text ≡ Ok m → text ≡ moment_text m }
{}

/// The text of a moment is 20 bytes of ASCII.
pub fn moment_texts_are_ascii()
    ensures length { (m : ℤ) → length (moment_text m) ≡ 20 }
    ensures ascii { (m : ℤ) → IsMoment m → IsAscii (moment_text m) }
{}

/// 0000-01-01T00:00:00Z.
const FIRST: i64 = -62_167_219_200;

/// 9999-12-31T23:59:59Z.
const LAST: i64 = 253_402_300_799;

/// The seconds from 0000-01-01T00:00:00Z to 1970-01-01T00:00:00Z.
const EPOCH: i64 = 62_167_219_200;

/// The days from `Date::MIN` to 0000-01-01.
const YEAR_ZERO: u32 = 3_652_059;

/// The form of a moment's text, with a 0 for each digit.
const FORM: &str = "0000-00-00T00:00:00Z";

/// The moment that a text is: `YYYY-MM-DDThh:mm:ssZ`, UTC in the proleptic Gregorian calendar
/// (ISO 8601, RFC 3339). Its form is tested first. Takes no memory.
#[tactic(auto, unfolding(crate::specs::Moment::moment_of))]
pub fn moment_of(text: &str) -> Result<Moment, MomentError>
    ensures moment { result ≡ moment_of text.now }
{
    let bytes = text.as_bytes();
    if has_form(bytes) {
        moment_at(date_time_in(bytes))
    } else {
        Err(MomentError::Form)
    }
}

#[tactic(auto, unfolding(crate::specs::Moment::has_form))]
fn has_form(bytes: &[u8]) -> bool
    ensures { result ≡ has_form bytes.now }
{
    bytes.len() == FORM.len()
        && bytes
            .iter()
            .zip(FORM.as_bytes())
            .all(|(byte, sign)| fits(*byte, *sign))
}

fn fits(byte: u8, sign: u8) -> bool
    ensures { result ≡ fits byte sign }
{
    if sign == b'0' {
        byte.is_ascii_digit()
    } else {
        byte == sign
    }
}

fn date_time_in(bytes: &[u8]) -> DateTime
    requires { IsTrue (has_form bytes.now) }
    ensures value { result ≡ date_time_in bytes.now }
    ensures year { result.year ≤ 9999 }
    ensures month { result.month < 100 }
    ensures day { result.day < 100 }
{
    DateTime {
        year: 100 * u16::from(number_at(bytes, 0)) + u16::from(number_at(bytes, 2)),
        month: number_at(bytes, 5),
        day: number_at(bytes, 8),
        hour: number_at(bytes, 11),
        minute: number_at(bytes, 14),
        second: number_at(bytes, 17),
    }
}

#[tactic(auto, using(crate::proofs::MomentForm::digits_at))]
fn number_at(bytes: &[u8], at: usize) -> u8
    requires form { IsTrue (has_form bytes.now) }
    requires digits { IsTrue (has_digits at) }
    ensures value { result ≡ number_at bytes.now at }
    ensures bound { result < 100 }
{
    10 * (bytes[at] - b'0') + (bytes[at + 1] - b'0')
}

fn moment_at(t: DateTime) -> Result<Moment, MomentError>
    requires year { t.year ≤ 9999 }
    requires month { t.month < 100 }
    requires day { t.day < 100 }
    ensures { result ≡ moment_at t }
{
    if !is_time(t) {
        return Err(MomentError::Range);
    }
    match days_before(t) {
        Some(days) => {
            let seconds = 86_400 * u64::from(days)
                + 3_600 * u64::from(t.hour)
                + 60 * u64::from(t.minute)
                + u64::from(t.second);
            Ok(Moment {
                seconds: seconds as i64 - EPOCH,
            })
        }
        None => Err(MomentError::Range),
    }
}

fn is_time(t: DateTime) -> bool
    ensures { result ≡ is_time t }
{
    t.hour < 24 && t.minute < 60 && t.second < 60
}

fn days_before(t: DateTime) -> Option<u32>
    requires year { t.year ≤ 9999 }
    requires month { t.month < 100 }
    requires day { t.day < 100 }
    ensures value { result ≡ (if is_date t then Some (days_before t) else None) }
    ensures bound { IfSome result (λ days. days ≤ 3_652_424) }
{
    match Date::new(t.year as i16, t.month as i8, t.day as i8) {
        Ok(date) => Some(date.days_since_min() - YEAR_ZERO),
        Err(_) => None,
    }
}

/// The text of a moment, always 20 bytes: `YYYY-MM-DDThh:mm:ssZ`.
#[tactic(auto, unfolding(crate::specs::Moment::moment_text))]
pub fn moment_text(alloc: Global, moment: Moment) -> Result<Text, AllocError>
    ensures text { IfOk result (λ text. text ≡ moment_text moment) }
{
    let seconds = (moment.seconds() + EPOCH) as u64;
    date_time_text(alloc, date_time_after(seconds))
}

fn date_time_after(seconds: u64) -> DateTime
    requires { seconds < 315_569_520_000 }
    ensures value { result ≡ date_time_after seconds }
    ensures date { IsTrue (is_date result) }
    ensures time { IsTrue (is_time result) }
{
    let date = Date::from_days_since_min((seconds / 86_400) as u32 + YEAR_ZERO);
    DateTime {
        year: date.year as u16,
        month: date.month,
        day: date.day,
        hour: (seconds % 86_400 / 3_600) as u8,
        minute: (seconds % 3_600 / 60) as u8,
        second: (seconds % 60) as u8,
    }
}

fn date_time_text(alloc: Global, t: DateTime) -> Result<Text, AllocError>
    requires date { IsTrue (is_date t) }
    requires time { IsTrue (is_time t) }
    ensures { IfOk result (λ text. text ≡ date_time_text t) }
{
    let DateTime {
        year,
        month,
        day,
        hour,
        minute,
        second,
    } = t;
    let text = format!(in alloc;
        "{year:04}-{month:02}-{day:02}T{hour:02}:{minute:02}:{second:02}Z"
    )?;
    Ok(Text::from_string(text))
}
