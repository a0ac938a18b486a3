// A command with the names of its files.

/// What is asked of an image: whether it is sound, or what stands in each LEB of it if it is.
#[derive(Clone, Copy, Debug, PartialEq, Eq)]
pub enum ImageCommand {
    Check,
    Dump,
}

/// What words say: a script is run on a volume, which leaves an image; an image is made of a manifest; or something is asked of an image.
#[derive(Clone, Copy, Debug, PartialEq, Eq)]
pub enum Command<'a> {
    Run {
        volume: &'a str,
        script: &'a str,
        image: &'a str,
    },
    Mkfs {
        manifest: &'a str,
        image: &'a str,
    },
    OfImage {
        command: ImageCommand,
        image: &'a str,
    },
}
