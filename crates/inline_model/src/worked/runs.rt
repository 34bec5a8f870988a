//! Lists of commands, with what is left of the text and whether the replies are legal.
ghost use Rattle.std.specs.Prelude.{◌≡◌, ◌+◌, ◌∷◌, [], List, ℕ};
ghost use Rattle.inlinable_string.specs.Text.{size};
ghost use Rattle.inlinable_string.specs.State.{TextState};
ghost use Rattle.inlinable_string.specs.Edit.{text_after};
ghost use Rattle.inlinable_string.specs.Run.{IsRun, EachRun, state_after_step, state_after};
ghost use Rattle.inlinable_string.specs.Step.{Covers, IsStep};
ghost use Rattle.inline_model.specs.Worked.{inline_text, heap_text, heap_only_text, two_commands};

use inlinable_string::Storage;
use inlinable_string::run::{Command, Reply};

/// After a step a text has capacity for its bytes and for the credit, and keeps its policy: after a
/// reservation for what was reserved, after `NoMemory` for no more.
pub fn states_after_a_step()
    ensures reserve { (t : List ℕ)
        → state_after_step (heap_text t 40) (Command.Reserve 100) Reply.Done
        ≡ heap_text t (size t + 100) }
    ensures refused { (t : List ℕ)
        → state_after_step (heap_text t 40) (Command.Push 97) Reply.NoMemory
        ≡ heap_text t (size t + 0) }
    ensures heap_only { (t : List ℕ)
        → state_after_step (heap_only_text t 40) Command.ShrinkToFit Reply.Done
        ≡ heap_only_text t (size t + 0) }
{}

/// Commands without a reply, and replies without a command, do nothing.
pub fn nothing_is_done_alone()
    ensures command { (t : List ℕ) (command : Command) (commands : List Command)
        → text_after t (command ∷ commands) [] ≡ t }
    ensures reply { (t : List ℕ) (replies : List Reply) → text_after t [] replies ≡ t }
    ensures command_state { (s : TextState) (command : Command) (commands : List Command)
        → state_after s (command ∷ commands) [] ≡ s }
    ensures reply_state { (s : TextState) (replies : List Reply)
        → state_after s [] replies ≡ s }
{}

/// A value in more room than a state says is covered by it, and in less room, or with another text,
/// storage or policy, it is not.
pub fn state_covers_values()
    ensures same { (s : TextState) → Covers s s }
    ensures more_room { (t : List ℕ) → Covers (heap_text t 40) (heap_text t 41) }
    ensures less_room { (t : List ℕ) → ¬ Covers (heap_text t 40) (heap_text t 39) }
    ensures text { ¬ Covers (heap_text [] 40) (heap_text (97 ∷ []) 40) }
    ensures storage { (t : List ℕ) → ¬ Covers (inline_text t 30) (heap_text t 30) }
    ensures policy { (t : List ℕ) → ¬ Covers (heap_text t 40) (heap_only_text t 40) }
{}

/// "a" put at the end of the empty text on the heap, in room for 40 bytes, leaves no less room, and
/// no other text, storage or policy. Want of memory is not legal, nor are fewer replies or more.
pub fn run_of_one_push()
    ensures met { IsRun (heap_text [] 40) (Command.Push 97 ∷ []) (Reply.Done ∷ [])
        (heap_text (97 ∷ []) 40) }
    ensures less_room { ¬ IsRun (heap_text [] 40) (Command.Push 97 ∷ []) (Reply.Done ∷ [])
        (heap_text (97 ∷ []) 39) }
    ensures text { ¬ IsRun (heap_text [] 40) (Command.Push 97 ∷ []) (Reply.Done ∷ [])
        (heap_text [] 40) }
    ensures storage { ¬ IsRun (heap_text [] 30) (Command.Push 97 ∷ []) (Reply.Done ∷ [])
        (inline_text (97 ∷ []) 30) }
    ensures policy { ¬ IsRun (heap_text [] 40) (Command.Push 97 ∷ []) (Reply.Done ∷ [])
        (heap_only_text (97 ∷ []) 40) }
    ensures refused { ¬ IsRun (heap_text [] 40) (Command.Push 97 ∷ []) (Reply.NoMemory ∷ [])
        (heap_text [] 40) }
    ensures fewer { ¬ IsRun (heap_text [] 40) (Command.Push 97 ∷ []) [] (heap_text [] 40) }
    ensures more { ¬ IsRun (heap_text [] 40) [] (Reply.Done ∷ []) (heap_text [] 40) }
{}

/// The same as one step, whichever room was certain before.
pub fn step_of_one_push()
    ensures met { IsStep (heap_text [] 40) (Command.Push 97) Reply.Done
        (heap_text (97 ∷ []) 40) }
    ensures refused { ¬ IsStep (heap_text [] 40) (Command.Push 97) Reply.NoMemory
        (heap_text [] 40) }
{}

/// Of "a" and of "b" the character is taken off, and of the empty text none: each text has two
/// replies of its own, in the order of the texts.
pub fn runs_of_two_texts()
    ensures met { EachRun (inline_text (97 ∷ []) 30 ∷ inline_text (98 ∷ []) 30 ∷ [])
        two_commands
        (Reply.Char 97 ∷ Reply.NoChar ∷ Reply.Char 98 ∷ Reply.NoChar ∷ [])
        (inline_text [] 30 ∷ inline_text [] 30 ∷ []) }
    ensures other_order { ¬ EachRun (inline_text (97 ∷ []) 30 ∷ inline_text (98 ∷ []) 30 ∷ [])
        two_commands
        (Reply.Char 98 ∷ Reply.NoChar ∷ Reply.Char 97 ∷ Reply.NoChar ∷ [])
        (inline_text [] 30 ∷ inline_text [] 30 ∷ []) }
    ensures same_replies { ¬ EachRun (inline_text (97 ∷ []) 30 ∷ inline_text (98 ∷ []) 30 ∷ [])
        two_commands (Reply.Char 97 ∷ Reply.NoChar ∷ [])
        (inline_text [] 30 ∷ inline_text [] 30 ∷ []) }
{}

/// No text has any replies, and none is lost or found.
pub fn runs_of_no_text()
    ensures met { (commands : List Command) → EachRun [] commands [] [] }
    ensures found { (s : TextState) (commands : List Command) (replies : List Reply)
        → ¬ EachRun [] commands replies (s ∷ []) }
    ensures lost { (s : TextState) (commands : List Command) (replies : List Reply)
        → ¬ EachRun (s ∷ []) commands replies [] }
{}
