//! The imprints of the texts that a run books, as a seal names them, and whether they begin with what was booked.
ghost use Rattle.std.specs.Prelude.{◌≡◌};
ghost use Rattle.seat_seal.specs.Booked.{is_booked};
ghost use Rattle.seat_scripts.specs.TextImprints.{text_imprint};

use airline_base::Items;
use booked_texts::imprint_beside;
use seat_seal::Imprint;

/// The imprint of each script, in the order of the scripts; of one without a byte there is none.
pub type TextImprints = Items<Option<Imprint>>;

/// The imprint of a text that has a byte, and whether the text begins with one of these that were booked.
pub(crate) fn text_beside(bytes: &[u8], booked: &[Imprint]) -> (Option<Imprint>, bool)
    ensures imprint { result.0 ≡ text_imprint bytes.now }
    ensures booked { result.1 ≡ is_booked booked.now bytes.now }
{
    let (imprint, is_booked) = imprint_beside(bytes, booked);
    if bytes.is_empty() {
        (None, is_booked)
    } else {
        (Some(imprint), is_booked)
    }
}
