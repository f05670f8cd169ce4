// What is wrong with a record of a sheet that can't be read.

use crate::excerpt::Excerpt;
use crate::fields::{first_not_text, has_line_end, is_no_text, text_at, words_of};
use crate::line_fault::{OPEN_QUOTE, is_of_statement, write_dismissed_fault};
use crate::sentence::{write_four, write_one, write_three, write_two};
use crate::sum_meant::{sum_meant, sum_of_two};
use crate::verbs::{VerbNames, verb_meant};
use csv::ByteRecord;
use day_sheet::{Verb, VerbForm, field_bytes, form_of, is_dismissal};
use std::fmt;
use trust_base::{BankAmount, Field, MAX_AMOUNT};

// Whether the record goes on after its line: a field of it contains the end of a line.
fn is_on_several_lines(row: &ByteRecord) -> bool {
    for place in 0..row.len() {
        if has_line_end(field_bytes(row, place)) {
            return true;
        }
    }
    false
}

// Whether all fields from a place on are empty.
fn is_empty_from(row: &ByteRecord, first: usize) -> bool {
    for place in first..row.len() {
        if !field_bytes(row, place).is_empty() {
            return false;
        }
    }
    true
}

// The amount that was written with a comma, and so became two fields.
fn amount_with_comma(form: &VerbForm, row: &ByteRecord) -> Option<BankAmount> {
    if matches!(
        form.verb,
        Verb::Deposit | Verb::Propose | Verb::Claim | Verb::Award
    ) {
        sum_of_two(text_at(row, 3), text_at(row, 4))
    } else {
        None
    }
}

// Writes what is wrong with a record that has more fields than its verb takes.
fn write_too_many<W: fmt::Write>(
    f: &mut fmt::Formatter<W>,
    form: &VerbForm,
    row: &ByteRecord,
) -> fmt::Result {
    let (verb, wanted, found) = (form.name, form.field_count, row.len());
    if is_empty_from(row, wanted) {
        let words = "{} takes {} fields, {} are here: take the empty ones off its end";
        return write_three(f, words, &verb, &wanted, &found);
    }
    match amount_with_comma(form, row) {
        Some(amount) => {
            let words = "{} takes {} fields, {} are here: write the amount without a comma, {}";
            write_four(f, words, &verb, &wanted, &found, &amount)
        }
        None => {
            let words =
                "{} takes {} fields, {} are here: {}, and a field with a comma in double quotes";
            write_four(f, words, &verb, &wanted, &found, &form.pattern)
        }
    }
}

// Writes what is wrong with a record that is meant to dismiss a line.
fn write_no_dismissal<W: fmt::Write>(f: &mut fmt::Formatter<W>, row: &ByteRecord) -> fmt::Result {
    if row.len() == 8 && field_bytes(row, 1).is_empty() && field_bytes(row, 2).is_empty() {
        write_dismissed_fault(f, row)
    } else {
        f.write_str(
            "a line is dismissed as the list of exceptions has it: dismiss,,,DATE,REFERENCE,BANK_REF,AMOUNT,TEXT",
        )
    }
}

// Writes what is wrong with a text that is neither a verb nor a request of messages.
fn write_no_word<W: fmt::Write>(f: &mut fmt::Formatter<W>, name: &str) -> fmt::Result {
    let (bytes, excerpt) = (name.as_bytes(), Excerpt::new(name));
    if let Some(verb) = verb_meant(bytes) {
        write_two(f, "{} is no verb: write {}", &excerpt, &verb)
    } else if bytes.iter().any(|byte| *byte == b';' || *byte == b'\t') {
        write_one(f, "{} is no verb: put commas between the fields", &excerpt)
    } else {
        write_two(f, "{} is no verb: {}", &excerpt, &VerbNames)
    }
}

// Writes what is wrong with a text that is no verb.
fn write_no_verb<W: fmt::Write>(f: &mut fmt::Formatter<W>, name: &str) -> fmt::Result {
    match name {
        "approve" | "decline" | "void" | "fee" | "offer" => {
            write_one(
                f,
                "\"{}\" is no verb of a sheet: a lawyer asks it by a message",
                &name,
            )
        }
        "accept" | "dispute" => {
            write_one(
                f,
                "\"{}\" is no verb of a sheet: a client asks it by a message",
                &name,
            )
        }
        _ => write_no_word(f, name),
    }
}

// Writes what is wrong with a record of this verb as a whole.
fn write_form_fault<W: fmt::Write>(
    f: &mut fmt::Formatter<W>,
    form: &VerbForm,
    row: &ByteRecord,
) -> fmt::Result {
    let (verb, wanted, found) = (form.name, form.field_count, row.len());
    if found < wanted {
        let words = "{} takes {} fields, {} are here: {}";
        write_four(f, words, &verb, &wanted, &found, &form.pattern)
    } else if found > wanted {
        write_too_many(f, form, row)
    } else if !form.names_entry && !field_bytes(row, 2).is_empty() {
        write_one(f, "{} names no entry: its third field stays empty", &verb)
    } else {
        let number = first_not_text(row);
        write_one(f, "field {} is not UTF-8: save the sheet as UTF-8", &number)
    }
}

// Writes what is wrong with a record as a whole.
fn write_whole_fault<W: fmt::Write>(f: &mut fmt::Formatter<W>, row: &ByteRecord) -> fmt::Result {
    if is_dismissal(row) {
        write_no_dismissal(f, row)
    } else if let Some(form) = form_of(row) {
        write_form_fault(f, form, row)
    } else if is_no_text(field_bytes(row, 0)) {
        f.write_str("this is no text in UTF-8: save the sheet as CSV in UTF-8")
    } else if is_of_statement(row) {
        f.write_str("this is a line of a statement, not of a sheet: import takes it")
    } else {
        write_no_verb(f, text_at(row, 0))
    }
}

// Writes what is wrong with a field that has this text.
fn write_text_fault<W: fmt::Write>(
    f: &mut fmt::Formatter<W>,
    field: Field,
    text: &str,
) -> fmt::Result {
    let of = words_of(field);
    if text.is_empty() {
        write_two(f, "the {} is empty: write {}", &of.noun, &of.form)
    } else {
        write_three(
            f,
            "{} is no {}: write {}",
            &Excerpt::new(text),
            &of.noun,
            &of.form,
        )
    }
}

// Writes what is wrong with a field that should have an amount of at least `least` cents.
fn write_amount_fault<W: fmt::Write>(
    f: &mut fmt::Formatter<W>,
    field: Field,
    text: &str,
    least: i64,
) -> fmt::Result {
    let excerpt = Excerpt::new(text);
    match sum_meant(text) {
        Some(amount) if amount.get() < 0 => {
            let words =
                "{} is below zero: write it without a sign, since the verb tells which way it goes";
            write_one(f, words, &excerpt)
        }
        Some(amount) if least <= amount.get() && amount.get() <= MAX_AMOUNT as i64 => {
            write_two(f, "{} is no amount: write {}", &excerpt, &amount)
        }
        Some(_) | None => write_text_fault(f, field, text),
    }
}

/// Writes what is wrong with a record in which this field is invalid.
pub fn write_record_fault<W: fmt::Write>(
    f: &mut fmt::Formatter<W>,
    row: &ByteRecord,
    field: Field,
) -> fmt::Result {
    let text = text_at(row, words_of(field).place);
    if is_on_several_lines(row) {
        f.write_str(OPEN_QUOTE)
    } else if field == Field::Record {
        write_whole_fault(f, row)
    } else if field == Field::Of
        && field_bytes(row, words_of(Field::From).place) == b"general".as_slice()
    {
        f.write_str("general is of no entry: its sixth field stays empty")
    } else if field == Field::Amount {
        write_amount_fault(f, field, text, 1)
    } else if field == Field::ToClient {
        write_amount_fault(f, field, text, 0)
    } else {
        write_text_fault(f, field, text)
    }
}
