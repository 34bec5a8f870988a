//! Where the bytes of a text start in their array.
ghost use Rattle.std.specs.Prelude.{◌≡◌};
ghost use Rattle.inlinable_string.specs.Cells.{start_with_more, start_with_less};

/// With three free bytes on each side three are inserted: before the fifth of ten bytes the part
/// before them moves down, and after it the part after them moves up.
pub fn the_shorter_part_makes_room()
    ensures front { start_with_more 3 3 10 4 3 ≡ 0 }
    ensures back { start_with_more 3 3 10 5 3 ≡ 3 }
    ensures some_left { start_with_more 5 9 10 0 3 ≡ 2 }
{}

/// With space on one side alone the part on that side moves, whether it is longer or not.
pub fn one_side_makes_room()
    ensures behind { start_with_more 2 3 10 0 3 ≡ 2 }
    ensures before { start_with_more 4 2 10 10 3 ≡ 1 }
    ensures just_before { start_with_more 3 2 10 10 3 ≡ 0 }
{}

/// With room on neither side the text slides to the front.
pub fn no_side_makes_room()
    ensures { start_with_more 2 2 10 5 3 ≡ 0 }
{}

/// Three of ten bytes are removed: with three before them and four after them the first part moves
/// up, and with four before them and three after them the second moves down, as it does if both
/// have the same length.
pub fn the_shorter_part_closes_up()
    ensures front { start_with_less 7 10 3 3 ≡ 10 }
    ensures back { start_with_less 7 10 4 3 ≡ 7 }
    ensures alike { start_with_less 7 9 3 3 ≡ 7 }
{}
