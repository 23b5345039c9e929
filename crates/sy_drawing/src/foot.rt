//! What is below a drawing that is kept: the name of its site file, the date, and the sum over its files.

use crate::text::push_name;
use sy_report::texts::parts::Part;
use sy_report::texts::words::Words;

/// The days of 400 years, of 100, of 4 and of one; of five months from March on.
const DAYS_OF_400_YEARS: u64 = 146_097;

const DAYS_OF_100_YEARS: u64 = 36_524;

const DAYS_OF_4_YEARS: u64 = 1_460;

const DAYS_OF_A_YEAR: u64 = 365;

const DAYS_OF_FIVE_MONTHS: u64 = 153;

/// The days from the first of March of the year 0 to the first day of 1970.
const DAYS_BEFORE_1970: u64 = 719_468;

// A date of the Gregorian calendar.
#[derive(Clone, Copy)]
struct Date {
    year: u64,
    month: u64,
    day: u64,
}

// The date of a day, by the days since the first of 1970. Years are counted from March on, so that the day that only leap
// years have is the last one.
fn date_of(days: u64) -> Date {
    let days = days.wrapping_add(DAYS_BEFORE_1970);
    let in_era = days % DAYS_OF_400_YEARS;
    let leaps = (in_era / DAYS_OF_4_YEARS)
        .wrapping_sub(in_era / DAYS_OF_100_YEARS)
        .wrapping_add(in_era / (DAYS_OF_400_YEARS - 1));
    let year = in_era.wrapping_sub(leaps) / DAYS_OF_A_YEAR;
    let begins = DAYS_OF_A_YEAR
        .wrapping_mul(year)
        .wrapping_add(year / 4)
        .wrapping_sub(year / 100);
    let in_year = in_era.wrapping_sub(begins);
    let month = in_year.wrapping_mul(5).wrapping_add(2) / DAYS_OF_FIVE_MONTHS;
    let month_begins = month.wrapping_mul(DAYS_OF_FIVE_MONTHS).wrapping_add(2) / 5;
    let is_next_year = month >= 10;
    Date {
        year: (days / DAYS_OF_400_YEARS)
            .wrapping_mul(400)
            .wrapping_add(year)
            .wrapping_add(u64::from(is_next_year)),
        month: if is_next_year {
            month.wrapping_sub(9)
        } else {
            month.wrapping_add(3)
        },
        day: in_year.wrapping_sub(month_begins).wrapping_add(1),
    }
}

// Puts a number of at least two digits.
fn push_two_digits(words: &mut Words, number: u64) {
    if number < 10 {
        words.say("0");
    }
    words.append(&[Part::Number(number)]);
}

// Puts a date as YYYY-MM-DD (RFC 3339).
fn push_date(words: &mut Words, date: &Date) {
    words.append(&[Part::Number(date.year), Part::Text(b"-")]);
    push_two_digits(words, date.month);
    words.say("-");
    push_two_digits(words, date.day);
}

/// Puts the line below a drawing: the name of its site file, the date by the days since the first of 1970, where that is known,
/// and the SHA-256 over its files in hexadecimal digits.
pub fn append_foot(words: &mut Words, name: &str, days: Option<u64>, digits: &str) {
    words.say("\\n");
    push_name(words, name.as_bytes());
    words.say(", ");
    if let Some(days) = days {
        push_date(words, &date_of(days));
        words.say(", ");
    }
    words.say("SHA-256 of its files ");
    words.say(digits);
}
