//! The text of a definition in the grammar of `implib`: what other tools take in a definition, and
//! that grammar lacks, in its words, byte for byte in place.

ghost use Rattle.implib.specs.Ascii.{begins};
ghost use Rattle.implib_rules.specs.Plain.{after_all, after_digit, after_number, after_sign};
ghost use Rattle.implib_rules.specs.Plain.{after_this_word, as_number, as_ordinal};
ghost use Rattle.implib_rules.specs.Plain.{begins_sections, begins_statement};
ghost use Rattle.implib_rules.specs.Plain.{before_line, begins_word, beginning, between_step};
ghost use Rattle.implib_rules.specs.Plain.{digit_of, ends_word, first_step, fitting, hex_digit};
ghost use Rattle.implib_rules.specs.Plain.{hex_number, hex_on, ignored, is_after_name};
ghost use Rattle.implib_rules.specs.Plain.{is_after_number, is_blank, is_blank_or_comma};
ghost use Rattle.implib_rules.specs.Plain.{is_closed, is_export_as, is_general_space};
ghost use Rattle.implib_rules.specs.Plain.{is_line_start, is_name_next, is_number_next, is_of_word};
ghost use Rattle.implib_rules.specs.Plain.{is_quoted_next, is_section_attribute};
ghost use Rattle.implib_rules.specs.Plain.{is_section_line, is_section_start, is_sections};
ghost use Rattle.implib_rules.specs.Plain.{is_space, is_statement, is_system, is_wide_space};
ghost use Rattle.implib_rules.specs.Plain.{name_step, number_step, ordinal_step, plain_from};
ghost use Rattle.implib_rules.specs.Plain.{plain_text, put, step_of, wants_name, wants_number};
ghost use Rattle.implib_rules.specs.Plain.{is_in_apostrophes, is_program_type, is_quoted_after};
ghost use Rattle.implib_rules.specs.Plain.{step_in_word, with_digit, word_step};
ghost use Rattle.std.specs.Char.{is_ascii_digit};
ghost use Rattle.std.specs.List.{fold};
ghost use Rattle.std.specs.Prelude.{◌≡◌, ◌<◌, ◌≤◌, IfOk, IfSome, Some, length, slice_index};
ghost use Rattle.std.specs.Prelude.{false, take_while, true};

use implib::def::lexer::is_delimiter;
use std::alloc::{AllocError, Global};

/// A decimal number whose digits are written one after another.
#[derive(Clone, Copy, Debug, PartialEq, Eq)]
pub struct Decimal {
    /// What is left of the number.
    pub value: u64,
    /// The power of ten of the next digit's place; after the last digit 0.
    pub power: u64,
}

/// What a byte of a definition is a part of.
#[derive(Clone, Copy, Debug, PartialEq, Eq)]
pub enum Part {
    /// Nothing: a lexeme may begin here.
    Between,
    /// A word that stays.
    Word,
    /// A name in `"`.
    Quotes,
    /// A name in `'`.
    Apostrophes,
    /// A comment.
    Comment,
    /// A line of no account.
    Skipped,
    /// What follows the NUL that ends the text.
    Ended,
    /// The second byte of EXPORTAS, which becomes `==`.
    SecondSign,
    /// The end of a word that becomes blanks.
    Blank,
    /// A hexadecimal number, which becomes these digits.
    Digits(Decimal),
}

/// What stands before a byte in its line.
#[derive(Clone, Copy, Debug, PartialEq, Eq)]
pub enum Before {
    /// No lexeme.
    LineStart,
    /// No lexeme; and before the line SECTIONS, or a line of it.
    SectionStart,
    /// A name or an attribute.
    Name,
    /// A sign, or a keyword that a name follows.
    Sign,
    /// A word that a number follows, or a sign after that or after a number.
    Number,
    /// A number of those that signs part.
    Counted,
    /// An `@` of its own after a name, which the ordinal follows.
    AtSign,
}

/// What is read at a byte.
#[derive(Clone, Copy, Debug, PartialEq, Eq)]
pub struct Reading {
    /// What the byte is a part of.
    pub part: Part,
    /// What stands before it.
    pub before: Before,
}

/// A byte of the text, and what is read after it.
#[derive(Clone, Copy, Debug, PartialEq, Eq)]
pub struct Step {
    /// The byte.
    pub byte: u8,
    /// What is read after it.
    pub reading: Reading,
}

// A space or a tab.
fn is_blank(byte: u8) -> bool
    ensures { result ≡ is_blank byte }
{
    byte == b' ' || byte == b'\t'
}

// A blank or a comma.
fn is_blank_or_comma(byte: u8) -> bool
    ensures { result ≡ is_blank_or_comma byte }
{
    is_blank(byte) || byte == b','
}

// White space of one byte.
pub(crate) fn is_space(byte: u8) -> bool
    ensures { result ≡ is_space byte }
{
    matches!(byte, b' ' | b'\t' | b'\n' | 0x0B | 0x0C | b'\r')
}

// Whether a byte is one of a word.
fn is_of_word(byte: u8) -> bool
    ensures { result ≡ is_of_word byte }
{
    !is_delimiter(byte)
}

// Whether a word ends before a text.
fn ends_word(text: &[u8]) -> bool
    ensures { result ≡ ends_word text.now }
{
    match text {
        [byte, ..] => is_delimiter(*byte),
        [] => true,
    }
}

// How many bytes in front of a text are blanks.
fn blanks_len(text: &[u8]) -> usize
    ensures { result ≡ length (take_while is_blank text.now) }
{
    text.iter().take_while(|byte| is_blank(**byte)).count()
}

// A text after the blanks in front.
pub(crate) fn after_blanks(text: &[u8]) -> &[u8]
    ensures { result.now ≡ after_all is_blank text.now }
{
    &text[blanks_len(text)..]
}

// How many bytes in front of a text are blanks or commas.
fn blanks_and_commas_len(text: &[u8]) -> usize
    ensures { result ≡ length (take_while is_blank_or_comma text.now) }
{
    text.iter()
        .take_while(|byte| is_blank_or_comma(**byte))
        .count()
}

// A text after the blanks and commas in front.
fn after_blanks_and_commas(text: &[u8]) -> &[u8]
    ensures { result.now ≡ after_all is_blank_or_comma text.now }
{
    &text[blanks_and_commas_len(text)..]
}

// How many bytes in front of a text are white space.
fn spaces_len(text: &[u8]) -> usize
    ensures { result ≡ length (take_while is_space text.now) }
{
    text.iter().take_while(|byte| is_space(**byte)).count()
}

// A text after the white space in front.
fn after_spaces(text: &[u8]) -> &[u8]
    ensures { result.now ≡ after_all is_space text.now }
{
    &text[spaces_len(text)..]
}

// How many bytes in front of a text are of a word.
fn word_len(text: &[u8]) -> usize
    ensures { result ≡ length (take_while is_of_word text.now) }
{
    text.iter().take_while(|byte| is_of_word(**byte)).count()
}

// A text after the word in front.
pub(crate) fn after_word(text: &[u8]) -> &[u8]
    ensures { result.now ≡ after_all is_of_word text.now }
{
    &text[word_len(text)..]
}

// Whether a text begins with this word, and not with a longer one.
pub(crate) fn begins_word(word: &[u8], text: &[u8]) -> bool
    ensures { result ≡ begins_word word.now text.now }
{
    text.starts_with(word) && ends_word(&text[word.len()..])
}

// Whether a quoted name is next in the line.
fn is_quoted_next(text: &[u8]) -> bool
    ensures { result ≡ is_quoted_next text.now }
{
    match after_blanks(text) {
        [byte, ..] => *byte == b'"' || *byte == b'\'',
        [] => false,
    }
}

// Whether a name may be next in the line.
fn is_name_next(text: &[u8]) -> bool
    ensures { result ≡ is_name_next text.now }
{
    match after_blanks(text) {
        [byte, ..] => !is_delimiter(*byte) && *byte != 0,
        [] => false,
    }
}

// Whether a system is next that a program of Windows 3 may be for.
#[tactic(auto, unfolding(crate::specs::Plain::is_system))]
fn is_system(text: &[u8]) -> bool
    ensures { result ≡ is_system text.now }
{
    begins_word(b"WINDOWS", text)
        || begins_word(b"OS2", text)
        || begins_word(b"DOS4", text)
        || begins_word(b"UNKNOWN", text)
}

// Whether a keyword is in front of a text, and then a quoted name in its line.
fn is_quoted_after(word: &[u8], text: &[u8]) -> bool
    ensures { result ≡ is_quoted_after word.now text.now }
{
    begins_word(word, text) && is_quoted_next(&text[word.len()..])
}

// Whether a statement of one line is in front of a text that is of no account for an import
// library.
fn is_statement(text: &[u8]) -> bool
    ensures { result ≡ is_statement text.now }
{
    is_quoted_after(b"DESCRIPTION", text)
        || is_quoted_after(b"STUB", text)
        || text.starts_with(b"STUB:")
        || is_program_type(text)
}

// Whether EXETYPE and a system are in front of a text.
fn is_program_type(text: &[u8]) -> bool
    ensures { result ≡ is_program_type text.now }
{
    begins_word(b"EXETYPE", text) && is_system(after_blanks(&text[7..]))
}

// Whether an attribute of a section is in front of a text.
fn is_section_attribute(text: &[u8]) -> bool
    ensures { result ≡ is_section_attribute text.now }
{
    begins_word(b"READ", text)
        || begins_word(b"WRITE", text)
        || begins_word(b"EXECUTE", text)
        || begins_word(b"SHARED", text)
        || begins_word(b"NONSHARED", text)
        || begins_word(b"SINGLE", text)
        || begins_word(b"MULTIPLE", text)
        || begins_word(b"CLASS", text)
}

// Whether a line of a section is in front of a text.
fn is_section_line(text: &[u8]) -> bool
    ensures { result ≡ is_section_line text.now }
{
    is_section_attribute(after_blanks_and_commas(after_word(text)))
}

// Whether SECTIONS is in front of a text, and a line of a section next.
fn is_sections(text: &[u8]) -> bool
    ensures { result ≡ is_sections text.now }
{
    begins_word(b"SECTIONS", text) && is_section_line(after_spaces(&text[8..]))
}

// Whether EXPORTAS is in front of a text, and a name next in its line.
fn is_export_as(text: &[u8]) -> bool
    ensures { result ≡ is_export_as text.now }
{
    begins_word(b"EXPORTAS", text) && is_name_next(&text[8..])
}

// Whether a byte may be in a name in `'`.
fn is_in_apostrophes(byte: u8) -> bool
    ensures { result ≡ is_in_apostrophes byte }
{
    byte != b'\'' && byte != b'"' && byte != b'\n'
}

// How many bytes in front of a text may be in a name in `'`.
fn inside_len(text: &[u8]) -> usize
    ensures { result ≡ length (take_while is_in_apostrophes text.now) }
{
    text.iter()
        .take_while(|byte| is_in_apostrophes(**byte))
        .count()
}

// Whether a name is closed that a `'` before the text opens.
fn is_closed(text: &[u8]) -> bool
    ensures { result ≡ is_closed text.now }
{
    match &text[inside_len(text)..] {
        [byte, ..] => *byte == b'\'',
        [] => false,
    }
}

// The value of a hexadecimal digit.
fn hex_digit(byte: u8) -> Option<u64>
    ensures { result ≡ hex_digit byte }
{
    match byte {
        b'0'..=b'9' => Some((byte - 48) as u64),
        b'a'..=b'f' => Some((byte - 87) as u64),
        b'A'..=b'F' => Some((byte - 55) as u64),
        _ => None,
    }
}

// A number with one more digit, unless it grows too large.
fn with_digit(number: Decimal, digit: Option<u64>) -> Option<Decimal>
    requires { IfSome digit (λ d. d < 16) }
    ensures { result ≡ with_digit number digit }
{
    let digit = digit?;
    if number.value < 100_000_000_000_000_000 && number.power < 1_000_000_000_000_000_000 {
        return Some(Decimal {
            value: number.value * 16 + digit,
            power: number.power * 10,
        });
    }
    None
}

// A number with the digit of one more byte.
fn hex_on(number: Option<Decimal>, byte: u8) -> Option<Decimal>
    ensures { result ≡ hex_on number byte }
{
    with_digit(number?, hex_digit(byte))
}

// The number of the digits of a word.
fn hex_of(word: &[u8]) -> Option<Decimal>
    ensures { result ≡ fold hex_on (Some (record { value = 0; power = 10 })) word.now }
{
    let mut number = Some(Decimal {
        value: 0,
        power: 10,
    });
    for byte in word {
        number = hex_on(number, *byte);
    }
    number
}

// A number that has no more decimal digits than the power of its first place allows.
fn fitting(number: Option<Decimal>) -> Option<Decimal>
    ensures { result ≡ fitting number }
{
    let number = number?;
    if number.power != 0 && number.value / number.power < 10 {
        return Some(number);
    }
    None
}

// The number of a hexadecimal word in front of a text.
fn hex_number(text: &[u8]) -> Option<Decimal>
    ensures { result ≡ hex_number text.now }
{
    if !text.starts_with(b"0x") {
        return None;
    }
    let digits = &text[2..];
    let len = word_len(digits);
    if len == 0 {
        return None;
    }
    fitting(hex_of(&digits[..len]))
}

// What stands before the next line.
fn before_line(before: Before) -> Before
    ensures { result ≡ before_line before }
{
    match before {
        Before::SectionStart => Before::SectionStart,
        Before::LineStart
        | Before::Name
        | Before::Sign
        | Before::Number
        | Before::Counted
        | Before::AtSign => Before::LineStart,
    }
}

// Whether no lexeme of the line is before a byte.
pub(crate) fn is_line_start(before: Before) -> bool
    ensures { result ≡ is_line_start before }
{
    matches!(before, Before::LineStart | Before::SectionStart)
}

// Whether the lines of SECTIONS may go on.
fn is_section_start(before: Before) -> bool
    ensures { result ≡ is_section_start before }
{
    matches!(before, Before::SectionStart)
}

// Whether a name or an attribute is before a byte.
pub(crate) fn is_after_name(before: Before) -> bool
    ensures { result ≡ is_after_name before }
{
    matches!(before, Before::Name)
}

// Whether a word that a number follows is before a byte, or a number.
fn is_after_number(before: Before) -> bool
    ensures { result ≡ is_after_number before }
{
    matches!(before, Before::Number | Before::Counted)
}

// Whether a number may be next.
fn is_number_next(before: Before) -> bool
    ensures { result ≡ is_number_next before }
{
    matches!(before, Before::Number | Before::AtSign)
}

// After a number: after an ordinal, what follows a name.
fn after_number(before: Before) -> Before
    ensures { result ≡ after_number before }
{
    if matches!(before, Before::AtSign) {
        Before::Name
    } else {
        Before::Counted
    }
}

// A number, if it is an ordinal: one of 16 bits.
fn as_ordinal(number: Option<Decimal>) -> Option<Decimal>
    ensures { result ≡ as_ordinal number }
{
    match number {
        Some(number) if number.value < 65536 => Some(number),
        _ => None,
    }
}

// A number, if it may be next: after a lone `@`, an ordinal.
fn as_number(before: Before, number: Option<Decimal>) -> Option<Decimal>
    ensures { result ≡ as_number before number }
{
    match before {
        Before::AtSign => as_ordinal(number),
        _ => number,
    }
}

// After a sign.
fn after_sign(before: Before) -> Before
    ensures { result ≡ after_sign before }
{
    if is_after_number(before) {
        Before::Number
    } else {
        Before::Sign
    }
}

// Whether the second byte of a text is a capital, as it is in each keyword.
#[tactic(auto, using(crate::proofs::Shortcuts::no_keyword))]
fn may_be_keyword(text: &[u8]) -> bool
    ensures name { result ≡ false → wants_name text.now ≡ false }
    ensures number { result ≡ false → wants_number text.now ≡ false }
    ensures statement { result ≡ false → is_statement text.now ≡ false }
    ensures sections { result ≡ false → is_sections text.now ≡ false }
{
    byte_at(text, 1).is_ascii_uppercase()
}

// Whether a keyword that a name follows is in front of a text.
fn wants_name(text: &[u8]) -> bool
    ensures { result ≡ wants_name text.now }
{
    begins_word(b"EXPORTS", text) || begins_word(b"LIBRARY", text) || begins_word(b"NAME", text)
}

// Whether a keyword that a number follows is in front of a text.
fn wants_number(text: &[u8]) -> bool
    ensures { result ≡ wants_number text.now }
{
    begins_word(b"BASE", text) || begins_word(b"HEAPSIZE", text) || begins_word(b"STACKSIZE", text)
}

// Whether a digit is in front of a text.
fn begins_digit(text: &[u8]) -> bool
    ensures { result ≡ begins is_ascii_digit text.now }
{
    match text {
        [byte, ..] => byte.is_ascii_digit(),
        [] => false,
    }
}

// After the word in front of a text.
fn after_this_word(before: Before, text: &[u8]) -> Before
    ensures { result ≡ after_this_word before text.now }
{
    if may_be_keyword(text) && wants_name(text) {
        return Before::Sign;
    }
    if may_be_keyword(text) && wants_number(text) {
        return Before::Number;
    }
    if is_after_name(before) && begins_word(b"@", text) {
        return Before::AtSign;
    }
    if is_number_next(before) && begins_digit(text) {
        return after_number(before);
    }
    Before::Name
}

// A byte of the text, and what is then read.
fn put(byte: u8, part: Part, before: Before) -> Step
    ensures { result ≡ put byte part before }
{
    Step {
        byte,
        reading: Reading { part, before },
    }
}

// A byte that is read for nothing.
fn ignored(byte: u8) -> u8
    ensures { result ≡ ignored byte }
{
    if byte < 128 { byte } else { b'?' }
}

// The digit of a number at the place of its power.
fn digit_of(number: Decimal) -> u8
    ensures { result ≡ digit_of number }
{
    if number.power == 0 {
        return 48;
    }
    let digit = number.value / number.power % 10;
    48 + digit as u8
}

// A number after its first digit.
fn after_digit(number: Decimal) -> Decimal
    ensures { result ≡ after_digit number }
{
    if number.power == 0 {
        return number;
    }
    Decimal {
        value: number.value % number.power,
        power: number.power / 10,
    }
}

// The first byte of a word that stays.
fn word_step(before: Before, text: &[u8], byte: u8) -> Step
    ensures { result ≡ word_step before byte text.now }
{
    put(byte, Part::Word, after_this_word(before, text))
}

// The first byte of a word after `@`, or of an ordinal in hexadecimal.
fn ordinal_step(before: Before, text: &[u8], byte: u8, number: Option<Decimal>) -> Step
    ensures { result ≡ ordinal_step before byte text.now number }
{
    match number {
        Some(number) => put(byte, Part::Digits(number), Before::Name),
        None => word_step(before, text, byte),
    }
}

// The first byte of a number, if it is one in hexadecimal.
fn number_step(before: Before, text: &[u8], byte: u8, number: Option<Decimal>) -> Step
    ensures { result ≡ number_step before byte text.now number }
{
    match number {
        Some(number) => put(
            digit_of(number),
            Part::Digits(after_digit(number)),
            after_number(before),
        ),
        None => word_step(before, text, byte),
    }
}

// The first byte of a word that is no statement.
#[tactic(auto, unfolding(crate::specs::Plain::name_step))]
fn name_step(before: Before, text: &[u8], byte: u8, rest: &[u8]) -> Step
    ensures { result ≡ name_step before byte text.now rest.now }
{
    if is_after_name(before) && is_export_as(text) {
        return put(b'=', Part::SecondSign, Before::Sign);
    }
    if is_after_name(before) && byte == b'@' {
        return ordinal_step(before, text, byte, as_ordinal(hex_number(rest)));
    }
    if is_number_next(before) {
        return number_step(before, text, byte, as_number(before, hex_number(text)));
    }
    word_step(before, text, byte)
}

// Whether a statement of one line is in front of a text, at the beginning of a line.
#[tactic(auto, unfolding(crate::specs::Plain::begins_statement))]
fn begins_statement(before: Before, text: &[u8]) -> bool
    ensures { result ≡ begins_statement before text.now }
{
    is_line_start(before) && may_be_keyword(text) && is_statement(text)
}

// Whether SECTIONS, or one of its lines, is in front of a text, at the beginning of a line.
#[tactic(auto, unfolding(crate::specs::Plain::begins_sections))]
fn begins_sections(before: Before, text: &[u8]) -> bool
    ensures { result ≡ begins_sections before text.now }
{
    is_line_start(before) && may_be_keyword(text) && is_sections(text)
        || is_section_start(before) && is_section_line(text)
}

// The first byte of a word.
#[tactic(auto, unfolding(crate::specs::Plain::first_step))]
fn first_step(before: Before, text: &[u8], byte: u8, rest: &[u8]) -> Step
    ensures { result ≡ first_step before byte text.now rest.now }
{
    if begins_statement(before, text) {
        return put(b' ', Part::Skipped, Before::LineStart);
    }
    if begins_sections(before, text) {
        return put(b' ', Part::Skipped, Before::SectionStart);
    }
    name_step(before, text, byte, rest)
}

// Whether the last two bytes are of white space from U+2000 on.
fn is_general_space(second: u8, third: u8) -> bool
    ensures { result ≡ is_general_space second third }
{
    if second == 0x80 {
        return third >= 0x80 && third < 0x8B || third == 0xA8 || third == 0xA9 || third == 0xAF;
    }
    second == 0x81 && third == 0x9F
}

// Whether a byte is of white space that is not ASCII.
fn is_wide_space(first: u8, second: u8, third: u8) -> bool
    ensures { result ≡ is_wide_space first second third }
{
    if first == 0xC2 {
        return second == 0x85 || second == 0xA0;
    }
    if first == 0xE1 {
        return second == 0x9A && third == 0x80;
    }
    if first == 0xE2 {
        return is_general_space(second, third);
    }
    if first == 0xE3 {
        return second == 0x80 && third == 0x80;
    }
    first >= 128 && first < 192
}

// The byte at an index of a text, or 0.
fn byte_at(text: &[u8], index: usize) -> u8
    ensures { result ≡ slice_index text.now index }
{
    match text.get(index) {
        Some(byte) => *byte,
        None => 0,
    }
}

// A byte between lexemes.
fn between_step(before: Before, text: &[u8], byte: u8, rest: &[u8]) -> Step
    ensures { result ≡ between_step before byte text.now rest.now }
{
    if byte == b'\n' {
        return put(byte, Part::Between, before_line(before));
    }
    if is_space(byte) || is_wide_space(byte, byte_at(rest, 0), byte_at(rest, 1)) {
        return put(byte, Part::Between, before);
    }
    if byte == b'=' || byte == b',' {
        return put(byte, Part::Between, after_sign(before));
    }
    if byte == b';' {
        return put(byte, Part::Comment, before);
    }
    if byte == 0 {
        return put(byte, Part::Ended, before);
    }
    if byte == b'"' {
        return put(byte, Part::Quotes, Before::Name);
    }
    if byte == b'\'' && is_closed(rest) {
        return put(b'"', Part::Apostrophes, Before::Name);
    }
    first_step(before, text, byte, rest)
}

// A byte of a word, or after it.
fn step_in_word(inside: Step, before: Before, text: &[u8], byte: u8, rest: &[u8]) -> Step
    ensures { result ≡ step_in_word inside before byte text.now rest.now }
{
    if is_delimiter(byte) {
        return between_step(before, text, byte, rest);
    }
    inside
}

// One byte of a definition.
#[inline(always)]
pub(crate) fn step_of(reading: Reading, text: &[u8], byte: u8, rest: &[u8]) -> Step
    ensures { result ≡ step_of reading byte text.now rest.now }
{
    let before = reading.before;
    match reading.part {
        Part::Between => between_step(before, text, byte, rest),
        Part::Word => step_in_word(put(byte, Part::Word, before), before, text, byte, rest),
        Part::Quotes if byte == b'"' => put(byte, Part::Between, before),
        Part::Quotes => put(byte, Part::Quotes, before),
        Part::Apostrophes if byte == b'\'' => put(b'"', Part::Between, before),
        Part::Apostrophes => put(byte, Part::Apostrophes, before),
        Part::Comment if byte == b'\n' => put(byte, Part::Between, before_line(before)),
        Part::Comment => put(ignored(byte), Part::Comment, before),
        Part::Skipped if byte == b'\n' => put(byte, Part::Between, before),
        Part::Skipped => put(b' ', Part::Skipped, before),
        Part::Ended => put(ignored(byte), Part::Ended, before),
        Part::SecondSign => step_in_word(put(b'=', Part::Blank, before), before, text, byte, rest),
        Part::Blank => step_in_word(put(b' ', Part::Blank, before), before, text, byte, rest),
        Part::Digits(number) => {
            let inside = put(digit_of(number), Part::Digits(after_digit(number)), before);
            step_in_word(inside, before, text, byte, rest)
        }
    }
}

// At the beginning of a text.
pub(crate) const BEGINNING: Reading = Reading {
    part: Part::Between,
    before: Before::LineStart,
};

// A text after what is left in front of it of a word that stays, if one is read.
fn after_kept_word(reading: Reading, text: &[u8]) -> &[u8]
    ensures stays { plain_from reading result.now ≡ result.now
        → plain_from reading text.now ≡ text.now }
    ensures stayed { plain_from reading text.now ≡ text.now
        → plain_from reading result.now ≡ result.now }
    ensures no_longer { length result.now ≤ length text.now }
{
    match reading.part {
        Part::Word => after_word(text),
        _ => text,
    }
}

/// Whether bytes are the text of their definition as they are.
#[tactic(auto, unfolding(crate::specs::Plain::plain_from))]
pub(crate) fn is_plain(bytes: &[u8]) -> bool
    ensures plain { result ≡ true → plain_text bytes.now ≡ bytes.now }
    ensures always { plain_text bytes.now ≡ bytes.now → result ≡ true }
{
    let mut reading = BEGINNING;
    let mut text = bytes;
    while let [byte, rest @ ..] = text {
        let step = step_of(reading, text, *byte, rest);
        if step.byte != *byte {
            return false;
        }
        reading = step.reading;
        text = after_kept_word(reading, rest);
    }
    true
}

/// The text of a definition.
///
/// # Errors
///
/// An allocation failed.
#[tactic(auto, unfolding(crate::specs::Plain::plain_from))]
pub(crate) fn plain_text(alloc: Global, bytes: &[u8]) -> Result<Vec<u8>, AllocError>
    ensures { IfOk result (λ text. text.items ≡ plain_text bytes.now) }
{
    let mut plain = Vec::with_capacity(alloc, bytes.len())?;
    let mut reading = BEGINNING;
    let mut text = bytes;
    while let [byte, rest @ ..] = text {
        let step = step_of(reading, text, *byte, rest);
        plain.push(step.byte)?;
        reading = step.reading;
        text = rest;
    }
    Ok(plain)
}
