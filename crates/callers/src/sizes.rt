//! How many bytes a value of each type takes, as the README says. A false line is refused when the
//! crate is checked.
use inlinable_string::{InlinableString, InlinableStringN, InlineString, InlineStringN};

const _: () = prove!(size_of::<InlineString>() == 48);

const _: () = prove!(size_of::<InlinableString>() == 56);

// `N` and 16 bytes, rounded up to a multiple of 8.
const _: () = prove!(size_of::<InlineStringN<0>>() == 16);

const _: () = prove!(size_of::<InlineStringN<8>>() == 24);

const _: () = prove!(size_of::<InlineStringN<22>>() == 40);

const _: () = prove!(size_of::<InlineStringN<33>>() == 56);

// 8 bytes more, and at least 32.
const _: () = prove!(size_of::<InlinableStringN<0>>() == 32);

const _: () = prove!(size_of::<InlinableStringN<8>>() == 32);

const _: () = prove!(size_of::<InlinableStringN<22>>() == 48);
