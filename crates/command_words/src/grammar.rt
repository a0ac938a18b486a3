// The grammar of a command's words.

ghost use Rattle.std.specs.Prelude.{◌≡◌, ◌⊎◌, ◌↔◌, IsTrue, map, codes};
ghost use Rattle.std.specs.String.{string_bytes};
ghost use Rattle.command_words.specs.Words.{IsFileName, IsInGrammar};

// The words say a command.
pub(crate) fn is_in_grammar(words: &[String]) -> bool
    ensures { IsTrue result ↔ IsInGrammar (map string_bytes words.now) }
{
    match words {
        [command, image] => { is_of_image(command.as_bytes()) && is_file_name(image.as_bytes()) }
        [command, manifest, image] => {
            is_mkfs(command.as_bytes())
                && is_file_name(manifest.as_bytes())
                && is_file_name(image.as_bytes())
        }
        [command, volume, script, image] => {
            is_run(command.as_bytes())
                && is_file_name(volume.as_bytes())
                && is_file_name(script.as_bytes())
                && is_file_name(image.as_bytes())
        }
        _ => false,
    }
}

fn is_of_image(word: &[u8]) -> bool
    ensures { IsTrue result ↔ ((word.now ≡ codes "check") ⊎ (word.now ≡ codes "dump")) }
{
    word == b"check".as_slice() || word == b"dump".as_slice()
}

fn is_run(word: &[u8]) -> bool
    ensures { IsTrue result ↔ (word.now ≡ codes "run") }
{
    word == b"run".as_slice()
}

fn is_mkfs(word: &[u8]) -> bool
    ensures { IsTrue result ↔ (word.now ≡ codes "mkfs") }
{
    word == b"mkfs".as_slice()
}

fn is_file_name(word: &[u8]) -> bool
    ensures { IsTrue result ↔ IsFileName word.now }
{
    !word.is_empty() && word[0] != b'-'
}
