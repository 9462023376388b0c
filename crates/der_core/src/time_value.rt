ghost use Rattle.std.specs.Prelude.{◌≡◌, ◌↔◌, Some};
ghost use Rattle.der_core.specs.Reads.{Answers};
ghost use Rattle.der_core.specs.Time.{IsTime, form_tag, form_contents};
ghost use Rattle.der_core.specs.TimeReading.{form_of, form_and_moment_of};

use crate::moment::Moment;
use crate::tags;
use crate::time::read_time;

/// One of the two forms of a time (RFC 5280, section 4.1.2.5).
#[derive(Clone, Copy, Debug, PartialEq, Eq)]
pub enum TimeForm {
    /// UTCTime, with a year of two digits.
    Utc,

    /// GeneralizedTime, with a year of four digits.
    Generalized,
}

/// A time as it is written. A moment of the years 1950 to 2049 can be in either form, and so has two
/// texts; a time has one.
#[derive(Clone, Copy, Debug, PartialEq, Eq)]
pub struct Time {
    pub form: TimeForm,
    pub moment: Moment,
}

impl Time {
    /// The time that an element of this tag with these contents is. None exactly where it is none.
    pub fn read(tag: u8, contents: &[u8]) -> Option<Time>
        ensures found { (time : Time) → (result ≡ Some time)
            ↔ (IsTime time × (tag ≡ form_tag time.form)
            × (contents.now ≡ form_contents time.form time.moment)) }
        ensures exact { Answers (λ time. time) result (form_and_moment_of tag contents.now) }
    {
        read_value(tag, contents)
    }
}

#[tactic(auto, unfolding(crate::specs::TimeReading::form_and_moment_of))]
fn read_value(tag: u8, contents: &[u8]) -> Option<Time>
    ensures { Answers (λ time. time) result (form_and_moment_of tag contents.now) }
{
    let form = form(tag)?;
    let moment = read_time(tag, contents)?;
    Some(Time { form, moment })
}

// The form with this tag.
fn form(tag: u8) -> Option<TimeForm>
    ensures { Answers (λ form. form) result (form_of tag) }
{
    match tag {
        tags::UTC_TIME => Some(TimeForm::Utc),
        tags::GENERALIZED_TIME => Some(TimeForm::Generalized),
        _ => None,
    }
}
