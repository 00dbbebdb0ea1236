// The classes of consonants (paper 01, 'Bytes of a message'), each told by a match over the
// Windows-1251 codes of its letters, small and capital, with a range where letters of the class are
// neighbours in the alphabet.

ghost use Rattle.std.specs.Prelude.{◌≡◌};
ghost use Rattle.spec.specs.Letters.{small, is_hard_only, is_paired, is_soft_only};

use spec::alphabet;

// Class T: ж ш ц.
pub fn is_hard_only(b: u8) -> bool
    ensures { result ≡ is_hard_only (small b) }
{
    matches!(
        b,
        alphabet::ZHE
            | alphabet::TSE
            | alphabet::SHA
            | alphabet::CAPITAL_ZHE
            | alphabet::CAPITAL_TSE
            | alphabet::CAPITAL_SHA
    )
}

// Class P: б в г д з к л м н п р с т ф х.
pub fn is_paired(b: u8) -> bool
    ensures { result ≡ is_paired (small b) }
{
    matches!(
        b,
        alphabet::BE..=alphabet::DE
        | alphabet::ZE
        | alphabet::KA..=alphabet::EN
        | alphabet::PE..=alphabet::TE
        | alphabet::EF..=alphabet::HA
        | alphabet::CAPITAL_BE..=alphabet::CAPITAL_DE
        | alphabet::CAPITAL_ZE
        | alphabet::CAPITAL_KA..=alphabet::CAPITAL_EN
        | alphabet::CAPITAL_PE..=alphabet::CAPITAL_TE
        | alphabet::CAPITAL_EF..=alphabet::CAPITAL_HA
    )
}

// Class Q: ч щ й.
pub fn is_soft_only(b: u8) -> bool
    ensures { result ≡ is_soft_only (small b) }
{
    matches!(
        b,
        alphabet::SHORT_I
            | alphabet::CHE
            | alphabet::SHCHA
            | alphabet::CAPITAL_SHORT_I
            | alphabet::CAPITAL_CHE
            | alphabet::CAPITAL_SHCHA
    )
}
