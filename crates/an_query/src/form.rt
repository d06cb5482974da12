ghost use Rattle.std.specs.Prelude.{◌≡◌, OnOk};
ghost use Rattle.std.specs.Option.{option_copied};
ghost use Rattle.an_query.specs.Form.{with_given};

use an_base::Text;
use an_code::Parameter;
use form_urlencoded::Serializer;
use std::alloc::AllocError;

/// Writes a parameter behind a form, where a value is given.
pub fn append_given(
    form: &mut Serializer,
    parameter: Parameter,
    given: Option<&Text>,
) -> Result<(), AllocError>
    ensures written { OnOk result (form.new ≡ record form.old {
      form = with_given form.old.form (parameter, option_copied given.entry);
    }) }
{
    match given {
        Some(value) => form.append_pair(parameter.text(), value.as_str()),
        None => Ok(()),
    }
}
