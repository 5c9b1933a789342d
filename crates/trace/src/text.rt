// The text of a line, made in a string of a fixed room. `write!` does not serve here: a `Display` promises only what it writes
// where it succeeds, and a line that has room has to be written.
ghost use Rattle.std.specs.Prelude.{◌≡◌, ◌+◌, ◌<◌, ◌≤◌, ◌++◌, Some, decimal};
ghost use Rattle.arrayvec.specs.ArrayString.{array_string_len};
ghost use Rattle.trace.specs.Text.{letter_field, number_field, option_field, packet_fields, store_fields, row_text, refusal_text, end_text, text};

use crate::action::Transmission;
use crate::columns::Columns;
use crate::fault::RigFault;
use crate::line::{Line, Report};
use crate::queue::StoreFault;
use crate::writer::LINE_BYTES;
use arrayvec::ArrayString;
use itoa::Buffer;
use std::fmt;

type Text = ArrayString<LINE_BYTES>;

// The first column.
fn with_tick(tick: u32) -> Text
    ensures adds { result.bytes ≡ decimal tick }
    ensures short { array_string_len result ≤ 10 }
{
    let mut text = Text::new();
    text.push_str(Buffer::new().format(tick));
    text
}

fn push_letter(text: &mut Text, letter: u8)
    requires room { array_string_len text.old + 2 ≤ LINE_BYTES }
    requires ascii { letter < 128 }
    ensures { text.new.bytes ≡ text.old.bytes ++ letter_field letter }
{
    text.push(' ');
    text.push(char::from(letter));
}

fn push_number(text: &mut Text, n: u32)
    requires { array_string_len text.old + 11 ≤ LINE_BYTES }
    ensures adds { text.new.bytes ≡ text.old.bytes ++ number_field n }
    ensures short { array_string_len text.new ≤ array_string_len text.old + 11 }
{
    text.push(' ');
    text.push_str(Buffer::new().format(n));
}

fn push_option(text: &mut Text, n: Option<u32>)
    requires { array_string_len text.old + 11 ≤ LINE_BYTES }
    ensures adds { text.new.bytes ≡ text.old.bytes ++ option_field n }
    ensures short { array_string_len text.new ≤ array_string_len text.old + 11 }
{
    match n {
        Some(n) => push_number(text, n),
        None => text.push_str(" -"),
    }
}

// Packet, delay and copies.
fn push_packet(text: &mut Text, transmission: Option<Transmission>)
    requires { array_string_len text.old + 33 ≤ LINE_BYTES }
    ensures adds { text.new.bytes ≡ text.old.bytes ++ packet_fields transmission }
    ensures short { array_string_len text.new ≤ array_string_len text.old + 33 }
{
    match transmission {
        Some(sent) => {
            push_number(text, sent.packet);
            push_number(text, u32::from(sent.delay));
            push_number(text, u32::from(sent.copies));
        }
        None => text.push_str(" - - -"),
    }
}

// The store's letter and the number of its refusal.
fn push_store(text: &mut Text, fault: Option<StoreFault>)
    requires { array_string_len text.old + 13 ≤ LINE_BYTES }
    ensures adds { text.new.bytes ≡ text.old.bytes ++ store_fields fault }
    ensures short { array_string_len text.new ≤ array_string_len text.old + 13 }
{
    match fault {
        Some(fault) => {
            push_letter(text, fault.queue.letter());
            push_number(text, u32::from(fault.fault.number()));
        }
        None => text.push_str(" - -"),
    }
}

// The line of an action: tick, letter, channel, sequence number, word, packet, delay, copies.
fn row(tick: u32, columns: Columns) -> Text
    requires { columns.letter < 128 }
    ensures { result.bytes ≡ row_text tick columns }
{
    let mut text = with_tick(tick);
    push_letter(&mut text, columns.letter);
    push_number(&mut text, u32::from(columns.channel));
    push_option(&mut text, columns.sequence);
    push_option(&mut text, columns.word);
    push_packet(&mut text, columns.transmission);
    text.push('\n');
    text
}

// The line of a refusal: tick, X, its number, the store's letter and number.
fn refusal(tick: u32, fault: RigFault) -> Text
    ensures { result.bytes ≡ refusal_text tick fault }
{
    let mut text = with_tick(tick);
    push_letter(&mut text, b'X');
    push_number(&mut text, u32::from(fault.number()));
    push_store(&mut text, fault.store_fault());
    text.push('\n');
    text
}

// The last line: tick, E, the packets sent.
fn end(tick: u32, packets: u32) -> Text
    ensures { result.bytes ≡ end_text tick packets }
{
    let mut text = with_tick(tick);
    push_letter(&mut text, b'E');
    push_number(&mut text, packets);
    text.push('\n');
    text
}

impl Line {
    // An advance has the empty text.
    pub(crate) fn text(&self) -> Text
        ensures { result.bytes ≡ text self.now }
    {
        match self.report {
            Report::Action(action) => match action.columns() {
                Some(columns) => row(self.tick, columns),
                None => Text::new(),
            },
            Report::Refusal(fault) => refusal(self.tick, fault),
            Report::End { packets } => end(self.tick, packets),
        }
    }
}

impl fmt::Display for Line {
    ghost output = { λ l. Some (text l) };

    fn fmt<W: fmt::Write>(&self, f: &mut fmt::Formatter<W>) -> fmt::Result {
        write!(f, "{}", self.text())
    }
}
