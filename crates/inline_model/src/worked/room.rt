//! Where texts are stored, for how many bytes they have room, and which commands need no memory.
ghost use Rattle.std.specs.Prelude.{◌≡◌, List, ℕ};
ghost use Rattle.std.specs.Str.{chars};
ghost use Rattle.inlinable_string.specs.Text.{size};
ghost use Rattle.inlinable_string.specs.State.{TextState};
ghost use Rattle.inlinable_string.specs.Run.{IsFree, IsLegal, credit, credit_after_step, storage_after_step};
ghost use Rattle.inline_model.specs.Worked.{inline_text, heap_text};

use inlinable_string::Storage;
use inlinable_string::run::{Command, Reply};

/// Of 30 inline bytes 26 are taken: five more move the text to the heap, unless the allocation
/// fails.
pub fn five_bytes_go_to_the_heap(string: &str)
    requires { size (chars string.now) ≡ 5 }
    ensures done { (t : List ℕ) → size t ≡ 26
        → storage_after_step (inline_text t 30) (Command.PushStr string.entry) Reply.Done
        ≡ Storage.Heap }
    ensures refused { (t : List ℕ) → size t ≡ 26
        → storage_after_step (inline_text t 30) (Command.PushStr string.entry) Reply.NoMemory
        ≡ Storage.Inline }
{}

/// Ten bytes in room for 40 leave a credit of 30; ten more bytes leave 20, a bad place leaves it,
/// and a character taken off or a refusal of memory ends it.
pub fn credit_of_ten_bytes(string: &str)
    requires { size (chars string.now) ≡ 10 }
    ensures before { (t : List ℕ) → size t ≡ 10 → credit (heap_text t 40) ≡ 30 }
    ensures push { credit_after_step 30 (Command.PushStr string.entry) Reply.Done ≡ 20 }
    ensures bad_place { credit_after_step 30 (Command.Truncate 3) Reply.BadPlace ≡ 30 }
    ensures pop { credit_after_step 30 Command.Pop (Reply.Char 97) ≡ 0 }
    ensures refused { credit_after_step 30 (Command.PushStr string.entry) Reply.NoMemory ≡ 0 }
{}

/// Truncate and pop need no memory.
pub fn shrinking_is_free()
    ensures truncate { (s : TextState) → (p : ℕ) → IsFree s (Command.Truncate p) }
    ensures pop { (s : TextState) → IsFree s Command.Pop }
    ensures truncate_refused { (s : TextState) → (p : ℕ)
        → ¬ IsLegal s (Command.Truncate p) Reply.NoMemory }
{}

/// Memory may not be refused to four bytes where they have room inline.
pub fn four_bytes_are_free(string: &str)
    requires { size (chars string.now) ≡ 4 }
    ensures free { (t : List ℕ) → size t ≡ 26
        → IsFree (inline_text t 30) (Command.PushStr string.entry) }
    ensures refused { (t : List ℕ) → size t ≡ 26
        → ¬ IsLegal (inline_text t 30) (Command.PushStr string.entry) Reply.NoMemory }
    ensures done { (t : List ℕ) → size t ≡ 26
        → IsLegal (inline_text t 30) (Command.PushStr string.entry) Reply.Done }
{}

/// Memory may be refused to five bytes where four have room inline.
pub fn five_bytes_are_not_free(string: &str)
    requires { size (chars string.now) ≡ 5 }
    ensures free { (t : List ℕ) → size t ≡ 26
        → ¬ IsFree (inline_text t 30) (Command.PushStr string.entry) }
    ensures refused { (t : List ℕ) → size t ≡ 26
        → IsLegal (inline_text t 30) (Command.PushStr string.entry) Reply.NoMemory }
    ensures bad_place { (t : List ℕ) → size t ≡ 26
        → ¬ IsLegal (inline_text t 30) (Command.PushStr string.entry) Reply.BadPlace }
{}

/// Of 30 inline bytes at most 26 are taken: five put in go to the heap.
pub fn five_bytes_put_in_go_to_the_heap(string: &str)
    requires { size (chars string.now) ≡ 5 }
    ensures { (t : List ℕ) → (p : ℕ) → size t ≡ 26
        → storage_after_step (inline_text t 30) (Command.InsertStr p string.entry) Reply.Done
        ≡ Storage.Heap }
{}
