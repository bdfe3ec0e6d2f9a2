use acn_num::{NoMemory, Path};
use std::alloc::Global;

/// A path in words: its steps joined by full stops, and `root` where it has none.
pub fn path_in_words(alloc: Global, path: &Path) -> Result<String, NoMemory> {
    let mut words = String::new(alloc);
    for step in path.steps() {
        let stop = if words.is_empty() { "" } else { "." };
        write!(words, "{stop}{step}")?;
    }
    if words.is_empty() {
        words.push_str("root")?;
    }
    Ok(words)
}
