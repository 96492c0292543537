//! Files of other formats that may hold a FLAC stream.
ghost use Rattle.std.specs.Prelude.{◌↔◌, IsTrue};
ghost use Rattle.claxon_verdict.specs.Container.{ContainerIs, IsMp4, IsOgg};

/// What a file is, by its first bytes, where it may hold a FLAC stream and isn't one.
pub fn container(front: &[u8]) -> Option<&'static str>
    ensures container_is { ContainerIs front.now result }
{
    if is_ogg(front) {
        return Some("an Ogg file");
    }
    if is_mp4(front) {
        return Some("an MP4 file");
    }
    None
}

fn is_ogg(front: &[u8]) -> bool
    ensures { IsTrue result ↔ IsOgg front.now }
{
    front.starts_with(b"OggS")
}

fn is_mp4(front: &[u8]) -> bool
    ensures { IsTrue result ↔ IsMp4 front.now }
{
    front.len() >= 4 && front[4..].starts_with(b"ftyp")
}
