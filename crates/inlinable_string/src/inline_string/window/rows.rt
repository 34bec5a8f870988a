//! Rows that the prover computes: edits of an array of 30 bytes, what they leave, and where it
//! starts.
ghost use Rattle.std.specs.Prelude.{◌≡◌, ◌≤◌, ◌++◌, [], ◌∷◌, length, replicate, codes, true};
ghost use Rattle.inlinable_string.specs.Cells.{IsTextAt};

use super::Window;

/// Makes a text of `bytes`.
fn holding(bytes: &[u8]) -> Window<30>
    requires { length bytes.now ≤ 30 }
    ensures { IsTextAt result 0 bytes.now }
{
    let mut window = Window {
        start: 0,
        len: 0,
        bytes: [0; 30],
    };
    let _ = window.append(bytes);
    window
}

/// `remove(0)` of "abcdef".
fn a_removal_at_the_front_moves_the_start() -> Window<30>
    ensures { IsTextAt result 1 (codes "bcdef") }
{
    let mut window = holding("abcdef".as_bytes());
    window.remove(0, 1);
    window
}

/// `remove(3)` of "bcdef", which starts at 1.
fn a_removal_nearer_to_the_end_leaves_the_start() -> Window<30>
    ensures { IsTextAt result 1 (codes "bcdf") }
{
    let mut window = a_removal_at_the_front_moves_the_start();
    window.remove(3, 4);
    window
}

/// `insert(0, 'z')` into "bcdf", which starts at 1.
fn an_insertion_at_the_front_takes_the_room_before_it() -> Window<30>
    ensures { IsTextAt result 0 (codes "zbcdf") }
{
    let mut window = a_removal_nearer_to_the_end_leaves_the_start();
    let _ = window.insert_byte(0, b'z');
    window
}

/// `insert(0, 'y')` into "zbcdf", which starts at 0.
fn an_insertion_without_room_before_it_leaves_the_start() -> Window<30>
    ensures { IsTextAt result 0 (codes "yzbcdf") }
{
    let mut window = an_insertion_at_the_front_takes_the_room_before_it();
    let _ = window.insert_byte(0, b'y');
    window
}

/// `push_str("bc")` on 28 bytes that start at 2: 30 bytes after two times `remove(0)`.
fn a_push_without_room_after_it_moves_the_text_to_the_front() -> Window<30>
    ensures { IsTextAt result 0 (replicate 28 97 ++ codes "bc") }
{
    let mut window = holding(&[b'a'; 30][..]);
    window.remove(0, 1);
    window.remove(0, 1);
    let _ = window.append("bc".as_bytes());
    window
}

/// 30 bytes after `remove(0)` and `pop`.
fn room_on_both_sides() -> Window<30>
    ensures { IsTextAt result 1 (replicate 28 97) }
{
    let mut window = holding(&[b'a'; 30][..]);
    window.remove(0, 1);
    window.drop_back(1);
    window
}

/// `push('é')` on 28 bytes that start at 1.
fn a_push_takes_the_room_on_both_sides() -> Window<30>
    ensures { IsTextAt result 0 (replicate 28 97 ++ 195 ∷ 169 ∷ []) }
{
    let mut window = room_on_both_sides();
    let _ = window.append("é".as_bytes());
    window
}

/// `push('€')` on 28 bytes that start at 1.
fn a_push_that_does_not_fit_leaves_the_start() -> (bool, Window<30>)
    ensures refused { result.0 ≡ true }
    ensures left { IsTextAt result.1 1 (replicate 28 97) }
{
    let mut window = room_on_both_sides();
    let refused = window.append("€".as_bytes()).is_err();
    (refused, window)
}

/// `into_bytes` of "bcdef", which starts at 1.
fn the_bytes_are_at_the_front() -> [u8; 30]
    ensures { result ≡ codes "bcdef" ++ replicate 25 0 }
{
    a_removal_at_the_front_moves_the_start().to_bytes()
}

/// `truncate(4)`, `pop`, `replace_bytes` and `clear` of "bcdef", which starts at 1.
fn edits_in_place_leave_the_start() -> (Window<30>, Window<30>, Window<30>, Window<30>)
    ensures truncated { IsTextAt result.0 1 (codes "bcde") }
    ensures popped { IsTextAt result.1 1 (codes "bcd") }
    ensures overwritten { IsTextAt result.2 1 (codes "xyz") }
    ensures cleared { IsTextAt result.3 1 [] }
{
    let mut window = a_removal_at_the_front_moves_the_start();
    window.truncate(4);
    let truncated = window;
    window.drop_back(1);
    let popped = window;
    window.overwrite("xyz".as_bytes());
    let overwritten = window;
    window.clear();
    (truncated, popped, overwritten, window)
}
