//! Networks in memory: the words that name their files, and the files.

use nc_outside::MemFile;
use nc_types::Text;
use std::alloc::{AllocError, Global};

/// A file as it stands in this crate.
#[derive(Clone, Copy)]
pub struct Config {
    /// The name, which is the word for it too.
    pub name: &'static str,
    /// The bytes.
    pub text: &'static [u8],
}

/// The words of a run, and the files that are there.
#[derive(Drop)]
pub struct Network {
    /// The words.
    pub words: Vec<String>,
    /// The files.
    pub files: Vec<MemFile>,
}

// A file of this name and these bytes.
fn file_of(alloc: Global, name: &[u8], text: &[u8]) -> Result<MemFile, AllocError> {
    let name = Text::new(alloc, name)?;
    let bytes = text.to_vec(alloc)?;
    Ok(MemFile { name, bytes })
}

impl Network {
    /// No word and no file.
    pub fn new(alloc: Global) -> Network {
        Network {
            words: Vec::new(alloc),
            files: Vec::new(alloc),
        }
    }

    /// Adds a word, for a file that may be there or not.
    ///
    /// # Errors
    ///
    /// No memory for it.
    pub fn add_word(&mut self, alloc: Global, name: &str) -> Result<(), AllocError> {
        self.words.push(String::from_str(alloc, name)?)?;
        Ok(())
    }

    /// Adds a file, and the word for it.
    ///
    /// # Errors
    ///
    /// No memory for it.
    pub fn add_file(&mut self, alloc: Global, name: &str, text: &[u8]) -> Result<(), AllocError> {
        self.add_word(alloc, name)?;
        self.keep_file(alloc, name, text)
    }

    /// Adds a file for which there may be a word or not.
    ///
    /// # Errors
    ///
    /// No memory for it.
    pub fn keep_file(&mut self, alloc: Global, name: &str, text: &[u8]) -> Result<(), AllocError> {
        self.files.push(file_of(alloc, name.as_bytes(), text)?)?;
        Ok(())
    }

    /// The network of these files.
    ///
    /// # Errors
    ///
    /// No memory for it.
    pub fn of(alloc: Global, configs: &[Config]) -> Result<Network, AllocError> {
        let mut network = Network::new(alloc);
        for config in configs {
            network.add_file(alloc, config.name, config.text)?;
        }
        Ok(network)
    }

    /// Copies of the files.
    ///
    /// # Errors
    ///
    /// No memory for them.
    pub fn copied_files(&self, alloc: Global) -> Result<Vec<MemFile>, AllocError> {
        let mut files = Vec::new(alloc);
        for file in &self.files {
            files.push(file_of(alloc, file.name.bytes(), &file.bytes)?)?;
        }
        Ok(files)
    }
}
