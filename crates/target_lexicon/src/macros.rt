//! The macro `triple!`.

/// [`Triple::from_str`](crate::Triple::from_str) of an allocator and a string, for function bodies.
#[macro_export]
macro_rules! triple {
    ($alloc:expr, $text:expr $(,)?) => {
        $crate::Triple::from_str($alloc, $text)
    };
}
