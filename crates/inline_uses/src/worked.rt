//! Rows that the prover computes from the definitions that contracts cite.
ghost use Rattle.std.specs.Prelude.{◌≡◌, ℕ, List, [], ◌∷◌, true, false, map, Some, None, codes};
ghost use Rattle.std.specs.Borrow.{Bor};
ghost use Rattle.std.specs.Str.{chars};
ghost use Rattle.serde_json.specs.Data.{null, string, object, no_members, member};
ghost use Rattle.inline_uses.specs.Editor.{parts_of, text_of};
ghost use Rattle.inline_uses.specs.Rows.{moves_head};
ghost use Rattle.inline_uses.specs.Store.{entries_between, value_of, with_members, with_value, without};
ghost use Rattle.inline_uses.specs.Symbols.{AreIdsOf, HasAppended, HasAppendedAllButLast, key_order, text_at, with_ids};
ghost use Rattle.inline_uses.specs.Tokens.{continues, column_after, escape_of, is_solid_kind, kind_at, newlines, unescaped, AreTokens, Fails, IsStop, IsToken, StopsAt};
ghost use Rattle.inline_uses.specs.Tree.{node_at, joined, listed, walk, IsFaultOf};
ghost use Rattle.inline_uses.specs.declared.tokens.Fault.TheVariants.{TooLong, Unterminated, BadEscape};
ghost use Rattle.inline_uses.specs.declared.tokens.Kind.TheVariants.{Space, Word, Number, LineComment, BlockComment, Text, Mark};
ghost use Rattle.inline_uses.specs.declared.tree.Fault.TheVariants.{LongKey, NoNode, Taken, NotObject, TooDeep};
ghost use Rattle.std.specs.declared.cmp.Ordering.TheVariants.{Less, Equal, Greater};

/// A path has a slash before each key.
pub fn slashes_are_before_keys()
    ensures none { joined [] ≡ [] }
    ensures keys { joined (codes "a" ∷ [] ∷ codes "bc" ∷ []) ≡ codes "/a//bc" }
{}

/// A node is before those of its value, and these before the next member.
pub fn members_are_listed_in_order()
    ensures below { listed 0 None (object (member []
        (object (member [] (object no_members) no_members))
        (member [] (object no_members) no_members)))
        ≡ node_at None (chars []) ∷ node_at (Some 0) (chars []) ∷ node_at None (chars []) ∷ [] }
    ensures later { listed 0 None (object (member [] (object no_members)
        (member [] (object (member [] (object no_members) no_members)) no_members)))
        ≡ node_at None (chars []) ∷ node_at None (chars []) ∷ node_at (Some 1) (chars []) ∷ [] }
    ensures text { listed 0 None (string []) ≡ [] }
{}

/// Keys are followed from object to object.
pub fn keys_are_followed()
    ensures here { walk null [] ≡ Some null }
    ensures below { walk (object (member (codes "a") (object (member (codes "b") null no_members))
        no_members)) (codes "a" ∷ codes "b" ∷ []) ≡ Some null }
    ensures missing { walk (object no_members) (codes "a" ∷ []) ≡ None }
{}

/// Which faults a value has.
pub fn values_have_their_faults()
    ensures not_object { IsFaultOf 1 null NotObject }
    ensures member { IsFaultOf 2 (object (member [] null no_members)) NotObject }
    ensures object { ¬ (IsFaultOf 1 (object no_members) NotObject) }
    ensures deep { IsFaultOf 0 (object no_members) TooDeep }
    ensures shallow { ¬ (IsFaultOf 1 (object no_members) TooDeep) }
    ensures long { IsFaultOf 2 (object (member (codes "seventeen bytes a") null no_members))
        LongKey }
    ensures short { ¬ (IsFaultOf 2 (object (member (codes "sixteen bytes ab") null no_members))
        LongKey) }
    ensures taken { ¬ (IsFaultOf 1 null Taken) }
    ensures no_node { ¬ (IsFaultOf 1 null NoNode) }
{}

/// Among 64 entries or more those before an index move if they are fewer.
pub fn many_entries_move_on_their_shorter_side()
    ensures few { moves_head 63 0 ≡ false }
    ensures many { moves_head 64 31 ≡ true }
    ensures middle { moves_head 64 32 ≡ false }
{}

/// A key is below what goes on after it.
pub fn keys_are_in_the_order_of_their_bytes()
    ensures longer { key_order (codes "a") (codes "ab") ≡ Less }
    ensures same { key_order (codes "a") (codes "a") ≡ Equal }
    ensures later { key_order (codes "b") (codes "ab") ≡ Greater }
{}

/// The texts of ids.
pub fn ids_have_their_texts()
    ensures text { text_at (codes "a" ∷ codes "b" ∷ []) 1 ≡ codes "b" }
    ensures none { text_at (codes "a" ∷ []) 1 ≡ [] }
    ensures ids { with_ids (codes "a" ∷ codes "b" ∷ []) (1 ∷ 0 ∷ [])
        ≡ (codes "b", 1) ∷ (codes "a", 0) ∷ [] }
{}

/// The ids of items: of each its own, in its place, after those that were there.
pub fn items_have_their_ids()
    ensures each { (a b : Bor (List ℕ)) → a.now ≡ codes "a" → b.now ≡ codes "b"
        → AreIdsOf (codes "a" ∷ codes "b" ∷ []) (b ∷ a ∷ []) (1 ∷ 0 ∷ []) }
    ensures other { (a : Bor (List ℕ)) → a.now ≡ codes "a"
        → ¬ (AreIdsOf (codes "b" ∷ codes "a" ∷ []) (a ∷ []) (0 ∷ [])) }
    ensures after { (a : Bor (List ℕ)) → a.now ≡ codes "a"
        → HasAppended (codes "a" ∷ []) (7 ∷ []) (a ∷ []) (7 ∷ 0 ∷ []) }
    ensures refused { (a b : Bor (List ℕ)) → a.now ≡ codes "a"
        → HasAppendedAllButLast (codes "a" ∷ []) [] (a ∷ b ∷ []) (0 ∷ []) }
{}

/// What is put, found, deleted and between two keys.
pub fn entries_are_by_their_keys()
    ensures new { with_value ((codes "b", codes "1") ∷ []) (codes "a") (codes "2")
        ≡ (codes "a", codes "2") ∷ (codes "b", codes "1") ∷ [] }
    ensures again { with_value ((codes "b", codes "1") ∷ []) (codes "b") (codes "2")
        ≡ (codes "b", codes "2") ∷ [] }
    ensures found { value_of ((codes "b", codes "1") ∷ []) (codes "b") ≡ Some (codes "1") }
    ensures deleted { without ((codes "a", []) ∷ (codes "b", []) ∷ []) (codes "a")
        ≡ (codes "b", []) ∷ [] }
    ensures between { entries_between ((codes "a", []) ∷ (codes "b", []) ∷ (codes "c", []) ∷ [])
        (codes "b") (codes "c") ≡ (codes "b", []) ∷ [] }
{}

/// Members that are strings are entries.
pub fn strings_are_entries()
    ensures text { with_members [] (member (codes "a") (string (codes "1")) no_members)
        ≡ Some ((codes "a", codes "1") ∷ []) }
    ensures other { with_members [] (member (codes "a") null no_members) ≡ None }
{}

/// Two characters determine a token's kind.
pub fn sources_begin_with_kinds()
    ensures slashes { map kind_at (codes "//*" ∷ codes "/*/" ∷ codes "/ /" ∷ codes "/" ∷ [])
        ≡ Some LineComment ∷ Some BlockComment ∷ Some (Mark 47) ∷ Some (Mark 47) ∷ [] }
    ensures ascii { map kind_at (codes "0a" ∷ codes "9" ∷ codes "_" ∷ (34 ∷ []) ∷ [])
        ≡ Some Number ∷ Some Number ∷ Some Word ∷ Some Text ∷ [] }
    ensures others { map kind_at ((233 ∷ []) ∷ codes " a" ∷ codes ":" ∷ (1635 ∷ []) ∷ [])
        ≡ Some Word ∷ Some Space ∷ Some (Mark 58) ∷ Some (Mark 1635) ∷ [] }
{}

/// A letter, `_`, a digit, one of another script, `$`, a carriage return, a newline.
pub fn tokens_go_on()
    ensures word { map (continues Word) (233 ∷ 95 ∷ 49 ∷ 1635 ∷ 36 ∷ [])
        ≡ true ∷ true ∷ true ∷ true ∷ false ∷ [] }
    ensures number { map (continues Number) (233 ∷ 95 ∷ 49 ∷ 1635 ∷ 97 ∷ [])
        ≡ false ∷ true ∷ true ∷ false ∷ true ∷ [] }
    ensures line { map (continues LineComment) (233 ∷ 13 ∷ 10 ∷ []) ≡ true ∷ true ∷ false ∷ [] }
    ensures space { map (continues Space) (12288 ∷ 10 ∷ 95 ∷ []) ≡ true ∷ true ∷ false ∷ [] }
{}

/// What is written between quotes.
pub fn texts_have_their_meaning()
    ensures escapes { map escape_of (34 ∷ 39 ∷ 92 ∷ codes "0nrtu")
        ≡ Some 34 ∷ Some 39 ∷ Some 92 ∷ Some 0 ∷ Some 10 ∷ Some 13 ∷ Some 9 ∷ None ∷ [] }
    ensures text { unescaped (97 ∷ 92 ∷ 110 ∷ 233 ∷ []) ≡ Some (97 ∷ 10 ∷ 233 ∷ []) }
    ensures quote { unescaped (97 ∷ 34 ∷ []) ≡ None }
    ensures end { unescaped (97 ∷ 92 ∷ []) ≡ None }
{}

/// A source, its first token, and what is in the buffer then.
pub fn sources_begin_with_tokens()
    ensures number { IsToken Number (codes "1.5") (codes "1") (codes "1") }
    ensures text { IsToken Text (34 ∷ 92 ∷ 110 ∷ 34 ∷ 97 ∷ []) (34 ∷ 92 ∷ 110 ∷ 34 ∷ [])
        (10 ∷ []) }
    ensures comment { ¬ (IsToken BlockComment (codes "/**/*/") (codes "/**/*/") []) }
    ensures rest { ¬ (AreTokens (codes "a") []) }
    ensures solid { map is_solid_kind (Space ∷ LineComment ∷ BlockComment ∷ Mark 47 ∷ [])
        ≡ false ∷ false ∷ false ∷ true ∷ [] }
{}

/// The letter has two bytes, so it fits in two and not in one.
pub fn sources_have_faults()
    ensures word { Fails 1 Word (233 ∷ []) TooLong }
    ensures text { ¬ (StopsAt 2 TooLong (233 ∷ []) []) }
    ensures escape { IsStop (BadEscape 3) (92 ∷ 233 ∷ []) }
    ensures end { IsStop Unterminated (92 ∷ []) }
{}

/// Newlines end lines, and carriage returns do not.
pub fn positions_are_counted()
    ensures lines { newlines (97 ∷ 10 ∷ 13 ∷ 10 ∷ []) ≡ 2 }
    ensures column { column_after 3 (codes "ab") ≡ 5 }
    ensures newline { column_after 3 (97 ∷ 10 ∷ 233 ∷ []) ≡ 2 }
{}

/// The parts of a line, which are its text.
pub fn lines_are_cut_at_their_cursors()
    ensures before { (parts_of (Some (codes "a", codes "bc"))).before ≡ codes "a" }
    ensures behind { (parts_of (Some (codes "a", codes "bc"))).behind ≡ codes "bc" }
    ensures text { text_of (parts_of (Some (codes "a", codes "bc"))) ≡ codes "abc" }
{}
