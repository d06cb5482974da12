ghost use Rattle.std.specs.Prelude.{◌≡◌, IfOk, None, OnOk, fold};
ghost use Rattle.std.specs.Option.{option_copied};
ghost use Rattle.an_code.specs.declared.parameter.Parameter.TheVariants as parameter;
ghost use Rattle.an_query.specs.Dates.{bad_date};
ghost use Rattle.an_query.specs.Filters.{filter_parameters, filters_in};
ghost use Rattle.an_query.specs.Form.{with_given};
ghost use Rattle.an_query.specs.Given.{value_of};

use crate::form::append_given;
use crate::given::copied_value;
use crate::pairs::Pair;
use an_base::Text;
use an_code::Parameter;
use form_urlencoded::Serializer;
use std::alloc::AllocError;
use std::marker::Model;

/// What a search and a completion let pass, but for words: the values that were given, decoded.
#[derive(Debug, Drop)]
pub struct Filters {
    pub motivation: Option<Text>,
    /// Each of its pieces is two texts of moments, joined by `/`.
    pub date: Option<Text>,
    pub user: Option<Text>,
}

impl Model for Filters {
    ghost use Rattle.std.specs.Prelude.{◌≡◌, None};
    ghost use Rattle.an_query.specs.Dates.{bad_date};
    ghost use Rattle.an_query.specs.Filters.{FiltersRecord};

    ghost Value = { FiltersRecord };

    ghost view = { λ f. record { motivation = f.motivation; date = f.date; user = f.user } };

    ghost invariant = { λ f. bad_date f.date ≡ None };
}

impl Filters {
    /// The motivations that are asked for.
    pub fn motivation(&self) -> Option<&Text>
        ensures value { option_copied result ≡ self.now.motivation }
    {
        self.motivation.as_ref()
    }

    /// When annotations were made.
    pub fn date(&self) -> Option<&Text>
        ensures value { option_copied result ≡ self.now.date }
        ensures ranges { bad_date self.now.date ≡ None }
    {
        self.date.as_ref()
    }

    /// Who made them.
    pub fn user(&self) -> Option<&Text>
        ensures value { option_copied result ≡ self.now.user }
    {
        self.user.as_ref()
    }
}

/// The filters that pairs give.
pub fn filters_in(pairs: &[Pair]) -> Result<Filters, AllocError>
    requires ranges { bad_date (value_of parameter.Date pairs.now) ≡ None }
    ensures filters { IfOk result (λ filters. filters ≡ filters_in pairs.now) }
{
    Ok(Filters {
        motivation: copied_value(Parameter::Motivation, pairs)?,
        date: copied_value(Parameter::Date, pairs)?,
        user: copied_value(Parameter::User, pairs)?,
    })
}

/// Writes the filters that were given behind a form.
pub fn append_filters(form: &mut Serializer, filters: &Filters) -> Result<(), AllocError>
    ensures written { OnOk result (form.new ≡ record form.old {
      form = fold with_given form.old.form (filter_parameters filters.now);
    }) }
{
    append_given(form, Parameter::Motivation, filters.motivation())?;
    append_given(form, Parameter::Date, filters.date())?;
    append_given(form, Parameter::User, filters.user())
}
