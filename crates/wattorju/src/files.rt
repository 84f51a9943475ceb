// Files and directories.
ghost use Rattle.std.specs.Prelude.{◌≡◌, IfOk};
ghost use Rattle.ktm_world.specs.declared.command.Command.TheVariants.{CloseHandle, CreateDirectory, CreateDirectoryTransacted, CreateFile, CreateFileTransacted, DeleteFile, DeleteFileTransacted, DuplicateHandle, FindFiles, FindFilesTransacted, FlushFileBuffers, GetFileSizeEx, MoveFile, MoveFileTransacted, ReadFile, RemoveDirectory, RemoveDirectoryTransacted, SetEndOfFile, WriteFile};
ghost use Rattle.ktm_world.specs.declared.reply.Reply.TheVariants.{Contents, Done, Names, Size};
ghost use Rattle.wattorju.specs.Calls.{IsBinding, IsCalled, IsCompleted, answer_of, own, reply_of};

use crate::law::law_of_bytes;
use crate::machine::OWN;
use crate::{CompletionFault, Failure, Machine, OpenFile, Text, Transaction};
use ktm_base::{Bytes, Disk, TextList};
use ktm_world::{Access, Command, Completion, Disposition, ShareMode};

impl<D: Disk> Machine<D> {
    /// Opens a file, or makes it, as its disposition says. What is then written is committed by each call.
    pub fn create_file(
        &mut self,
        path: Text,
        access: Access,
        share: ShareMode,
        disposition: Disposition,
    ) -> Result<OpenFile, Failure>
        ensures { IsBinding (λ label. CreateFile label path.characters access share disposition) self.old self.new (answer_of result (λ made. Done)) (λ label. IfOk result (λ made. made.label ≡ label)) }
    {
        let Text { characters: path } = path;
        let label = self.free_label();
        match self.bind(
            label,
            Command::CreateFile {
                label,
                path,
                access,
                share,
                disposition,
            },
        ) {
            Ok(()) => Ok(OpenFile { label }),
            Err(failure) => Err(failure),
        }
    }

    /// Opens a file, or makes it, in a transaction: it is seen as the transaction sees it, and what is written is committed with it.
    pub fn create_file_transacted(
        &mut self,
        path: Text,
        access: Access,
        share: ShareMode,
        disposition: Disposition,
        transaction: &Transaction,
    ) -> Result<OpenFile, Failure>
        ensures { IsBinding (λ label. CreateFileTransacted label path.characters access share disposition transaction.now.label) self.old self.new (answer_of result (λ made. Done)) (λ label. IfOk result (λ made. made.label ≡ label)) }
    {
        let Text { characters: path } = path;
        let label = self.free_label();
        match self.bind(
            label,
            Command::CreateFileTransacted {
                label,
                path,
                access,
                share,
                disposition,
                transaction: transaction.label,
            },
        ) {
            Ok(()) => Ok(OpenFile { label }),
            Err(failure) => Err(failure),
        }
    }

    /// Reads so many bytes of a file, from an offset on, and fewer where it ends; at most 65,536.
    pub fn read(&mut self, file: &OpenFile, offset: u64, length: u64) -> Result<Bytes, Failure>
        ensures { IsCalled (ReadFile file.now.label offset length) self.old self.new (answer_of result Contents) }
    {
        self.bytes(Command::ReadFile {
            file: file.label,
            offset,
            length,
        })
    }

    /// Writes bytes into a file, from an offset on; at most 65,536. A gap before them is filled with zeros.
    pub fn write(&mut self, file: &OpenFile, offset: u64, bytes: Bytes) -> Result<(), Failure>
        ensures { IsCalled (WriteFile file.now.label offset bytes) self.old self.new (answer_of result (λ done. Done)) }
    {
        law_of_bytes(&bytes);
        self.done(Command::WriteFile {
            file: file.label,
            offset,
            bytes,
        })
    }

    /// Makes a file so many bytes long: it is cut, or filled with zeros.
    pub fn set_end_of_file(&mut self, file: &OpenFile, size: u64) -> Result<(), Failure>
        ensures { IsCalled (SetEndOfFile file.now.label size) self.old self.new (answer_of result (λ done. Done)) }
    {
        self.done(Command::SetEndOfFile {
            file: file.label,
            size,
        })
    }

    /// How many bytes a file has.
    pub fn file_size(&mut self, file: &OpenFile) -> Result<u64, Failure>
        ensures { IsCalled (GetFileSizeEx file.now.label) self.old self.new (answer_of result Size) }
    {
        self.size(Command::GetFileSizeEx { file: file.label })
    }

    /// Does nothing: a plain change outlives a loss of power before it is answered, and a transacted one from the commit on.
    pub fn flush(&mut self, file: &OpenFile) -> Result<(), Failure>
        ensures { IsCalled (FlushFileBuffers file.now.label) self.old self.new (answer_of result (λ done. Done)) }
    {
        self.done(Command::FlushFileBuffers { file: file.label })
    }

    /// Removes a file.
    pub fn delete_file(&mut self, path: Text) -> Result<(), Failure>
        ensures { IsCalled (DeleteFile path.characters) self.old self.new (answer_of result (λ done. Done)) }
    {
        let Text { characters: path } = path;
        self.done(Command::DeleteFile { path })
    }

    /// Removes a file, in a transaction.
    pub fn delete_file_transacted(
        &mut self,
        path: Text,
        transaction: &Transaction,
    ) -> Result<(), Failure>
        ensures { IsCalled (DeleteFileTransacted path.characters transaction.now.label) self.old self.new (answer_of result (λ done. Done)) }
    {
        let Text { characters: path } = path;
        self.done(Command::DeleteFileTransacted {
            path,
            transaction: transaction.label,
        })
    }

    /// Makes a directory.
    pub fn create_directory(&mut self, path: Text) -> Result<(), Failure>
        ensures { IsCalled (CreateDirectory path.characters) self.old self.new (answer_of result (λ done. Done)) }
    {
        let Text { characters: path } = path;
        self.done(Command::CreateDirectory { path })
    }

    /// Makes a directory, in a transaction.
    pub fn create_directory_transacted(
        &mut self,
        path: Text,
        transaction: &Transaction,
    ) -> Result<(), Failure>
        ensures { IsCalled (CreateDirectoryTransacted path.characters transaction.now.label) self.old self.new (answer_of result (λ done. Done)) }
    {
        let Text { characters: path } = path;
        self.done(Command::CreateDirectoryTransacted {
            path,
            transaction: transaction.label,
        })
    }

    /// Removes a directory that has no entries.
    pub fn remove_directory(&mut self, path: Text) -> Result<(), Failure>
        ensures { IsCalled (RemoveDirectory path.characters) self.old self.new (answer_of result (λ done. Done)) }
    {
        let Text { characters: path } = path;
        self.done(Command::RemoveDirectory { path })
    }

    /// Removes a directory that has no entries, in a transaction.
    pub fn remove_directory_transacted(
        &mut self,
        path: Text,
        transaction: &Transaction,
    ) -> Result<(), Failure>
        ensures { IsCalled (RemoveDirectoryTransacted path.characters transaction.now.label) self.old self.new (answer_of result (λ done. Done)) }
    {
        let Text { characters: path } = path;
        self.done(Command::RemoveDirectoryTransacted {
            path,
            transaction: transaction.label,
        })
    }

    /// Gives a file or a directory another name, in the same directory or in another one.
    pub fn move_file(&mut self, source: Text, target: Text) -> Result<(), Failure>
        ensures { IsCalled (MoveFile source.characters target.characters) self.old self.new (answer_of result (λ done. Done)) }
    {
        let Text { characters: source } = source;
        let Text { characters: target } = target;
        self.done(Command::MoveFile { source, target })
    }

    /// Gives a file or a directory another name, in a transaction.
    pub fn move_file_transacted(
        &mut self,
        source: Text,
        target: Text,
        transaction: &Transaction,
    ) -> Result<(), Failure>
        ensures { IsCalled (MoveFileTransacted source.characters target.characters transaction.now.label) self.old self.new (answer_of result (λ done. Done)) }
    {
        let Text { characters: source } = source;
        let Text { characters: target } = target;
        self.done(Command::MoveFileTransacted {
            source,
            target,
            transaction: transaction.label,
        })
    }

    /// Lists the entries of a directory whose names match a pattern, each directory's with a backslash behind it. Where there are none the
    /// answer is `FileNotFound`.
    pub fn find_files(&mut self, pattern: Text) -> Result<TextList, Failure>
        ensures { IsCalled (FindFiles pattern.characters) self.old self.new (answer_of result Names) }
    {
        let Text {
            characters: pattern,
        } = pattern;
        self.names(Command::FindFiles { pattern })
    }

    /// Lists the entries of a directory whose names match a pattern, as a transaction sees them.
    pub fn find_files_transacted(
        &mut self,
        pattern: Text,
        transaction: &Transaction,
    ) -> Result<TextList, Failure>
        ensures { IsCalled (FindFilesTransacted pattern.characters transaction.now.label) self.old self.new (answer_of result Names) }
    {
        let Text {
            characters: pattern,
        } = pattern;
        self.names(Command::FindFilesTransacted {
            pattern,
            transaction: transaction.label,
        })
    }

    /// Opens an open file once more: what it may be used for is the same.
    pub fn duplicate_file(&mut self, file: &OpenFile) -> Result<OpenFile, Failure>
        ensures { IsBinding (λ label. DuplicateHandle label own file.now.label) self.old self.new (answer_of result (λ made. Done)) (λ label. IfOk result (λ made. made.label ≡ label)) }
    {
        let label = self.free_label();
        match self.bind(
            label,
            Command::DuplicateHandle {
                label,
                process: OWN,
                source: file.label,
            },
        ) {
            Ok(()) => Ok(OpenFile { label }),
            Err(failure) => Err(failure),
        }
    }

    /// Closes a file that is open.
    pub fn close_file(&mut self, file: OpenFile) -> Result<(), CompletionFault>
        ensures { IsCompleted (CloseHandle file.label) self.old self.new (reply_of result (λ done. Done)) }
    {
        let OpenFile { label } = file;
        self.end(Completion::CloseHandle(label))
    }
}
