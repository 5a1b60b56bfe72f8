//! Five uses of the port, as a caller writes them: a boot loader, the macro, a key, a literal, and a spelling. Each
//! function is proved only from public contracts and definitions.
#![tactic(auto)]

mod boot;
mod by_macro;
mod key;
mod literals;
mod spelling;

pub use boot::{ImageFacts, image_facts};
pub use by_macro::triple_by_macro;
pub use key::CacheKey;
pub use literals::host_by_text;
pub use spelling::canonical_string;
