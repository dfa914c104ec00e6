//! The laws that acceptance rests on. They compute nothing.
pub use chr_confluence::laws::{confluence, grow, joinability, newman, parts, peak, rising};
pub use chr_confluence::listing::{classes, listed_cases, listed_confluence};
