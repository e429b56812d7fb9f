//! The form of the answer to a question.
ghost use Rattle.std.specs.Prelude.{◌≡◌};
ghost use Rattle.command_inputs.specs.Asked.{form_asked, page_asked, sums_form};

use seat_tables::Form;
use seat_words::{Shape, WordFault};

/// The one form that is asked for, of bars, CSV and JSON: none where it is the text, with bars or without. More than one is `E2 form`.
pub fn form_asked(shape: Shape, bars: bool) -> Result<Option<Form>, WordFault>
    ensures { result ≡ form_asked shape bars }
{
    if shape.csv {
        if shape.json || bars {
            return Err(WordFault::BadForm);
        }
        return Ok(Some(Form::Csv));
    }
    if shape.json {
        if bars {
            return Err(WordFault::BadForm);
        }
        return Ok(Some(Form::Json));
    }
    Ok(None)
}

/// That of sums, which have no bars: the text where no other is asked for.
pub fn sums_form(shape: Shape, bars: bool) -> Result<Form, WordFault>
    ensures { result ≡ sums_form shape bars }
{
    if bars {
        return Err(WordFault::BadForm);
    }
    match form_asked(shape, false) {
        Ok(Some(form)) => Ok(form),
        Ok(None) => Ok(Form::Text),
        Err(fault) => Err(fault),
    }
}

/// That of a page, which has no other form, no bars and no sums.
pub fn page_asked(shape: Shape, bars: bool, is_summed: bool) -> Result<(), WordFault>
    ensures { result ≡ page_asked shape bars is_summed }
{
    if shape.csv || shape.json || bars || is_summed {
        return Err(WordFault::BadForm);
    }
    Ok(())
}
