//! Recipes, the texts by which keys, certificates, packages and modules are made; this project's own.
//!
//! - `read_key_recipe` answers a key exactly where the text is a key recipe of it (`good`), and the
//!   first bad line exactly where it is none (`bad`), in the words of `specs/KeyRecipe.antt`.
//! - `read_cert_recipe` and `read_package_recipe` answer likewise what a certificate and what a
//!   firmware package are to say (`good`, `bad`), in the words of `specs/CertRecipe.antt` and
//!   `specs/PackageRecipe.antt`. What they answer can be issued (`short`) and packed (`plan`) without
//!   being looked at again. What a package is to say has texts that are read back: that is the law
//!   `package_recipes_have_texts` (`texts`).
//! - `read_module_recipe` answers likewise the module of a recipe (`good`, `bad`), in the words of
//!   `specs/ModuleRecipe.antt`. The module is within its limits (`valid`), and its record has 65,536
//!   octets at most (`short`).
//!
//! So a text is either a recipe or has one first bad line, and never both: those are the laws
//! `recipes_have_no_bad_line` (`certificates`, `packages`, `modules`, `keys`) and
//! `recipes_say_one_thing`, by which a text has one first bad line at most (`key_lines`,
//! `certificate_lines`, `package_lines`, `module_lines`) and is a recipe of one key, of one
//! certificate, of one package and of one module at most (`keys`, `certificates`, `packages`,
//! `modules`). `recipes_give_plans` is the law that what a certificate is to say has texts that are
//! read back, and that what a package is to say is within its limits (`certificates`, `packages`).
//! Nothing is said where memory is wanting. Key recipes take none; of the others each HEX is decoded
//! once, into its place in what is answered.
//!
//! Below it stand `packager`, with what certificates and packages can say, `cert_fields`, which reads
//! constraints and certificates and has the trust anchors, `der_core`, which reads decimal numbers,
//! moments and the contents of identifiers, `der_write`, by which names are made, `hss_chain` and
//! `lms_sign`, with the keys, `module_record`, with the modules and the parts of a key, `hex`, with
//! the hex digits of either case, and `memchr`, which finds the ends of lines and words. Above it
//! stand the commands that read recipes.
//!
//! Limits: a recipe has fewer than 2^32 - 1 octets, so that each line has a number, and a package
//! recipe at most 2^26, as the certificates of a package have together.
#![tactic(auto)]

mod anchor_line;
mod bad_line;
mod cert_draft;
mod cert_line;
mod cert_recipe;
mod cut;
mod key_line;
mod key_recipe;
mod laws;
mod lines;
mod module_draft;
mod module_line;
mod module_recipe;
mod name_word;
mod oid_word;
mod package_draft;
mod package_line;
mod package_recipe;
mod place;
mod words;

pub use bad_line::{BadLine, RecipeFault};
pub use cert_recipe::read_cert_recipe;
pub use key_recipe::read_key_recipe;
pub use laws::{
    package_recipes_have_texts, recipes_give_plans, recipes_have_no_bad_line, recipes_say_one_thing,
};
pub use module_recipe::read_module_recipe;
pub use package_recipe::read_package_recipe;
