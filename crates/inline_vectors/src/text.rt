//! The texts that rows are played on, in one type: what each answers to a call, and what is seen
//! of it.
ghost use Rattle.std.specs.Prelude.{◌≡◌, length};

use crate::answer::Answer;
use crate::begin::Kind;
use crate::call::Call;
use crate::fault::{Fault, NO_TYPE};
use array::play_array;
use given::Given;
use inlinable::{play_inlinable, play_string};
use inlinable_string::run::{Command, Reply, run, run_dyn};
use inlinable_string::{
    BoxableString, InlinableString, InlinableStringN, InlineString, InlineStringN, Storage,
    StringExt,
};
use std::alloc::Global;
use test_support::{EmptyText, HeapText};
use traits::{edit, make};

mod array;
mod converted;
pub mod given;
mod inlinable;
mod traits;
mod views;

/// A text of any type.
#[derive(Drop)]
pub enum Text {
    Array0(InlineStringN<0>),
    Array1(InlineStringN<1>),
    Array3(InlineStringN<3>),
    Array4(InlineStringN<4>),
    Array8(InlineStringN<8>),
    Array10(InlineStringN<10>),
    Array30(InlineString),
    Array300(InlineStringN<300>),
    Inlinable0(InlinableStringN<0>),
    Inlinable1(InlinableStringN<1>),
    Inlinable3(InlinableStringN<3>),
    Inlinable4(InlinableStringN<4>),
    Inlinable8(InlinableStringN<8>),
    Inlinable10(InlinableStringN<10>),
    Inlinable30(InlinableString),
    Inlinable39(InlinableStringN<39>),
    Inlinable48(InlinableStringN<48>),
    Inlinable300(InlinableStringN<300>),
    Boxable(BoxableString),
    String(String),
    User(HeapText),
}

/// What is seen of a text.
#[derive(Clone, Copy)]
pub struct View<'a> {
    pub string: &'a str,
    /// `None` in an array, which never moves.
    pub storage: Option<Storage>,
    pub capacity: usize,
    /// The capacity inline, of a type that has one.
    pub limit: Option<usize>,
    /// Whether all calls that look at it agree.
    pub is_one: bool,
}

impl Text {
    /// The empty text of this type: new, or with capacity.
    pub fn empty(alloc: Global, kind: Kind, room: Option<usize>) -> Result<Text, Fault> {
        Ok(match kind {
            Kind::Array(limit) if limit < room.unwrap_or(0) => return Err(NO_TYPE),
            Kind::Array(0) => Text::Array0(InlineStringN::new()),
            Kind::Array(1) => Text::Array1(InlineStringN::new()),
            Kind::Array(3) => Text::Array3(InlineStringN::new()),
            Kind::Array(4) => Text::Array4(InlineStringN::new()),
            Kind::Array(8) => Text::Array8(InlineStringN::new()),
            Kind::Array(10) => Text::Array10(InlineStringN::new()),
            Kind::Array(30) => Text::Array30(InlineString::new()),
            Kind::Array(300) => Text::Array300(InlineStringN::new()),
            Kind::Inlinable(0) => Text::Inlinable0(empty_inlinable(alloc, room)?),
            Kind::Inlinable(1) => Text::Inlinable1(empty_inlinable(alloc, room)?),
            Kind::Inlinable(3) => Text::Inlinable3(empty_inlinable(alloc, room)?),
            Kind::Inlinable(4) => Text::Inlinable4(empty_inlinable(alloc, room)?),
            Kind::Inlinable(8) => Text::Inlinable8(empty_inlinable(alloc, room)?),
            Kind::Inlinable(10) => Text::Inlinable10(empty_inlinable(alloc, room)?),
            Kind::Inlinable(30) => Text::Inlinable30(empty_inlinable(alloc, room)?),
            Kind::Inlinable(39) => Text::Inlinable39(empty_inlinable(alloc, room)?),
            Kind::Inlinable(48) => Text::Inlinable48(empty_inlinable(alloc, room)?),
            Kind::Inlinable(300) => Text::Inlinable300(empty_inlinable(alloc, room)?),
            Kind::Boxable => Text::Boxable(BoxableString(EmptyText::empty(alloc, room)?)),
            Kind::String => Text::String(EmptyText::empty(alloc, room)?),
            Kind::User => Text::User(EmptyText::empty(alloc, room)?),
            Kind::Array(_) | Kind::Inlinable(_) => return Err(NO_TYPE),
        })
    }

    /// What a call answers, which may change the text, or make it one of another type.
    pub fn play(&mut self, call: &Call, given: &mut Given) -> Result<Answer, Fault> {
        if matches!(call.word, "with_limit" | "into_array" | "boxed") {
            return converted::convert(self, call);
        }
        match self {
            Text::Array0(text) => play_array(text, call, given),
            Text::Array1(text) => play_array(text, call, given),
            Text::Array3(text) => play_array(text, call, given),
            Text::Array4(text) => play_array(text, call, given),
            Text::Array8(text) => play_array(text, call, given),
            Text::Array10(text) => play_array(text, call, given),
            Text::Array30(text) => play_array(text, call, given),
            Text::Array300(text) => play_array(text, call, given),
            Text::Inlinable0(text) => play_inlinable(text, call, given),
            Text::Inlinable1(text) => play_inlinable(text, call, given),
            Text::Inlinable3(text) => play_inlinable(text, call, given),
            Text::Inlinable4(text) => play_inlinable(text, call, given),
            Text::Inlinable8(text) => play_inlinable(text, call, given),
            Text::Inlinable10(text) => play_inlinable(text, call, given),
            Text::Inlinable30(text) => play_inlinable(text, call, given),
            Text::Inlinable39(text) => play_inlinable(text, call, given),
            Text::Inlinable48(text) => play_inlinable(text, call, given),
            Text::Inlinable300(text) => play_inlinable(text, call, given),
            Text::Boxable(text) => edit(text, call, given),
            Text::String(text) => play_string(text, call, given),
            Text::User(text) => make(text, call, given),
        }
    }

    /// Executes commands by one `run`. Returns whether the type has the traits.
    pub fn run(&mut self, commands: &[Command], replies: &mut [Reply]) -> bool {
        if replies.len() != commands.len() {
            return false;
        }
        match self {
            Text::Inlinable0(text) => run_inlinable(text, commands, replies),
            Text::Inlinable1(text) => run_inlinable(text, commands, replies),
            Text::Inlinable3(text) => run_inlinable(text, commands, replies),
            Text::Inlinable4(text) => run_inlinable(text, commands, replies),
            Text::Inlinable8(text) => run_inlinable(text, commands, replies),
            Text::Inlinable10(text) => run_inlinable(text, commands, replies),
            Text::Inlinable30(text) => run_inlinable(text, commands, replies),
            Text::Inlinable39(text) => run_inlinable(text, commands, replies),
            Text::Inlinable48(text) => run_inlinable(text, commands, replies),
            Text::Inlinable300(text) => run_inlinable(text, commands, replies),
            Text::Boxable(text) => run(text, commands, replies),
            Text::String(text) => run(text, commands, replies),
            Text::User(text) => run(text, commands, replies),
            _ => return false,
        }
        true
    }

    /// Executes commands by one `run_dyn`. Returns whether that is played on the type: of those
    /// with a capacity on 0 and 30.
    pub fn run_dyn(&mut self, commands: &[Command], replies: &mut [Reply]) -> bool {
        if replies.len() != commands.len() {
            return false;
        }
        match self {
            Text::Inlinable0(text) => run_dyn(text, commands, replies),
            Text::Inlinable30(text) => run_dyn(text, commands, replies),
            Text::Boxable(text) => run_dyn(text, commands, replies),
            Text::String(text) => run_dyn(text, commands, replies),
            Text::User(text) => run_dyn(text, commands, replies),
            _ => return false,
        }
        true
    }

    /// What is seen of the text.
    pub fn view(&self) -> View<'_> {
        match self {
            Text::Boxable(text) => view_of(text, Some(30)),
            Text::String(text) => view_of(text, None),
            Text::User(text) => view_of(text, None),
            Text::Inlinable0(text) => view_inlinable(text),
            Text::Inlinable1(text) => view_inlinable(text),
            Text::Inlinable3(text) => view_inlinable(text),
            Text::Inlinable4(text) => view_inlinable(text),
            Text::Inlinable8(text) => view_inlinable(text),
            Text::Inlinable10(text) => view_inlinable(text),
            Text::Inlinable30(text) => view_inlinable(text),
            Text::Inlinable39(text) => view_inlinable(text),
            Text::Inlinable48(text) => view_inlinable(text),
            Text::Inlinable300(text) => view_inlinable(text),
            Text::Array0(text) => view_array(text),
            Text::Array1(text) => view_array(text),
            Text::Array3(text) => view_array(text),
            Text::Array4(text) => view_array(text),
            Text::Array8(text) => view_array(text),
            Text::Array10(text) => view_array(text),
            Text::Array30(text) => view_array(text),
            Text::Array300(text) => view_array(text),
        }
    }
}

/// The empty text of a capacity. Here and below a trait of `InlinableStringN` is found once for all
/// capacities: where it is found at each, a proof pays for each.
fn empty_inlinable<const N: usize>(
    alloc: Global,
    room: Option<usize>,
) -> Result<InlinableStringN<N>, Fault> {
    Ok(EmptyText::empty(alloc, room)?)
}

fn run_inlinable<const N: usize>(
    text: &mut InlinableStringN<N>,
    commands: &[Command],
    replies: &mut [Reply],
)
    requires { length replies.old ≡ length commands.now }
{
    run(text, commands, replies)
}

fn view_inlinable<const N: usize>(text: &InlinableStringN<N>) -> View<'_> {
    view_of(text, Some(N))
}

/// What is seen of a text by all calls that look at it.
macro_rules! viewed {
    ($text:ident, $storage:expr, $capacity:expr, $limit:expr) => {{
        let string = $text.as_str();
        View {
            string,
            storage: $storage,
            capacity: $capacity,
            limit: $limit,
            is_one: $text.eq_str(string)
                && $text.as_bytes() == string.as_bytes()
                && $text.len() == string.len()
                && $text.is_empty() == string.is_empty()
                && string.len() <= $capacity,
        }
    }};
}

fn view_of<S: StringExt>(text: &S, limit: Option<usize>) -> View<'_> {
    viewed!(text, Some(text.storage()), text.capacity(), limit)
}

fn view_array<const N: usize>(text: &InlineStringN<N>) -> View<'_> {
    viewed!(text, None, N, Some(N))
}
