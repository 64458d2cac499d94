//! Laws of the text of certificates.

ghost use Rattle.std.specs.Prelude.{◌≡◌, ◌+◌, ◌++◌, ℕ, List, Ok, Option, length};
ghost use Rattle.hinted_log.specs.Hints.{HintedLog};
ghost use Rattle.cert_core.specs.Blocks.{Block};
ghost use Rattle.cert_text.specs.Printed.{certificate_text, line_end, sound_text};
ghost use Rattle.cert_text.specs.Reading.{ReadSoFar, lines_of, read_from, read_text};
ghost use Rattle.cert_text_laws.specs.Readable.{AreBlocks, AreReadable, HasNoSound, HasOtherLines, IsFree, IsReadable, LeadsTo, blocks_text, only, with_certificate, with_sound};

/// What is printed of a certificate is read back as it was, wherever it stands in a text. It does nothing: its contract
/// is the law.
pub fn printed_certificates_are_read()
    ensures { (items s : ℕ) (r : ReadSoFar) (b : Block) → IsReadable b → IsFree r s → LeadsTo items (certificate_text (s + 1) b) r (with_certificate r s b) }
{}

/// What is printed of a sound block is read back as it was, wherever it stands in a text. It does nothing: its contract
/// is the law.
pub fn printed_sound_blocks_are_read()
    ensures { (r : ReadSoFar) (parts : List (Option HintedLog)) → AreReadable parts → HasNoSound r → LeadsTo (length parts) (sound_text parts) r (with_sound r parts) }
{}

/// Lines that are no certificate's change nothing, wherever they stand in a text. It does nothing: its contract is the
/// law.
pub fn other_lines_are_passed_over()
    ensures { (items n last : ℕ) (r : ReadSoFar) (text behind : List ℕ) → HasOtherLines text → read_from items n last r (lines_of (text ++ line_end ++ behind)) ≡ read_from items (n + length (lines_of text)) last r (lines_of behind) }
{}

/// A text that is printed of a sound block, if there is one, and of the certificates of some specifications is read as
/// these and nothing else, alone or behind other lines, as those of a model are. It does nothing: its contract is the
/// law.
pub fn printed_texts_are_read()
    ensures alone { (items : ℕ) (sound : Option (List (Option HintedLog))) (certificates : List (Option Block)) → AreBlocks items sound certificates → read_text (length certificates) items (blocks_text sound certificates) ≡ Ok (only sound certificates) }
    ensures behind { (items : ℕ) (sound : Option (List (Option HintedLog))) (certificates : List (Option Block)) (others : List ℕ) → AreBlocks items sound certificates → HasOtherLines others → read_text (length certificates) items (others ++ line_end ++ blocks_text sound certificates) ≡ Ok (only sound certificates) }
{}
