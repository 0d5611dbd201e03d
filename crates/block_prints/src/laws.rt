ghost use Rattle.std.specs.Prelude.{◌≡◌, ℤ, List, true};
ghost use Rattle.block_prints.specs.Writable.{IsWritable};
ghost use Rattle.block_theory.specs.BlockPorts.{Context};
ghost use Rattle.block_theory.specs.BlockFiles.{block_file};
ghost use Rattle.sdc_reader.specs.Files.{Reads};
ghost use Rattle.sdc_writer.specs.Printable.{is_printable_file};
ghost use Rattle.sdc_writer.specs.Texts.{file_text};

/// The file of a block is printable where names are printed identifiers and the times in it may be read, so its text reads
/// back as it.
pub fn block_files_are_printable()
    ensures printable { (x : Context) (arrivals : List ℤ) → IsWritable x arrivals → is_printable_file (block_file x arrivals) ≡ true }
    ensures reads { (x : Context) (arrivals : List ℤ) → IsWritable x arrivals → Reads (file_text (block_file x arrivals)) (block_file x arrivals) }
{}
