//! Reading the texts of a file's rows.

ghost use Rattle.std.specs.Prelude.{IfSome, MatchResult};
ghost use Rattle.zarr_meta.specs.Meta.{Refuses};
ghost use Rattle.zarr_meta.specs.Kept.{IsReadingOf};

use std::alloc::{AllocError, Global};
use std::collections::BTreeMap;
use zarr_meta::{MetaFault, MetaReader, SharedMeta};

/// A reader of the texts of one file. Texts that share no bytes are no longer than their file, all together. As soon as they are
/// longer, some rows share one text: from there on each text is kept, and isn't read again. So what is copied of a file is at most
/// about twice its length, however often its rows name a text.
#[derive(Drop)]
pub(crate) struct TextReader<'a> {
    apart: usize,
    reader: MetaReader,
    seen: BTreeMap<&'a [u8], SharedMeta>,
}

impl<'a> TextReader<'a> {
    /// A reader of the texts of a file of so many bytes. It takes no memory.
    pub(crate) fn new(alloc: Global, bytes: usize) -> TextReader<'a> {
        TextReader {
            apart: bytes,
            reader: MetaReader::new(),
            seen: BTreeMap::new(alloc),
        }
    }

    /// The metadata that is kept of this text.
    #[tactic(auto, using(zarr_meta::proofs::KeptLaws::kept_read))]
    fn kept(&self, text: &'a [u8]) -> Option<&SharedMeta>
        ensures { IfSome result (λ meta. IsReadingOf text.now meta.now) }
    {
        let kept = self.seen.get(&text)?;
        if kept.text.as_slice() == text {
            Some(kept)
        } else {
            None
        }
    }

    /// Keeps metadata, by its text.
    fn keep(&mut self, text: &'a [u8], meta: SharedMeta) -> Result<(), AllocError> {
        self.seen.insert(text, meta)?;
        Ok(())
    }

    /// Reads a text as [`MetaReader::read`] does.
    pub(crate) fn read(&mut self, alloc: Global, text: &'a [u8]) -> Result<SharedMeta, MetaFault>
        ensures { MatchResult result (IsReadingOf text.now) (Refuses text.now) }
    {
        if text.len() <= self.apart {
            self.apart -= text.len();
            return self.reader.read(alloc, text);
        }
        if let Some(kept) = self.kept(text) {
            return Ok(kept.share()?);
        }
        let meta = self.reader.read(alloc, text)?;
        self.keep(text, meta.share()?)?;
        Ok(meta)
    }
}
