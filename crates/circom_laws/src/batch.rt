ghost use Rattle.std.specs.Prelude.{◌≡◌, ◌↔◌, ℕ, List, Some, IsSomeAnd, slice_get};
ghost use Rattle.text_lines.specs.Lines.{lines_of};
ghost use Rattle.out_io.specs.Contents.{Contents};
ghost use Rattle.circom_words.specs.Words.{Options};
ghost use Rattle.circom_files.specs.Reply.{Reply, Says};
ghost use Rattle.circom_files.specs.Running.{witnessed};
ghost use Rattle.circom_batch.specs.declared.item.Item.{Item};
ghost use Rattle.circom_gold.specs.Batch.{Batches, HasBatch, IsBatchOf, IsBatched, SaysItem};
ghost use Rattle.circom_gold.specs.Batch.{batched};
ghost use Rattle.circom_gold.specs.Compile.{LoadsAgain};
ghost use Rattle.circom_gold.specs.Witness.{Witnesses};

/// What the replies to `batch` mean. Where the status is 0, the file holds the items of the lines;
/// and each item is the file, or the line, that `witness` has for a file that holds this line
/// alone, where the source loads as it did.
pub fn batch_laws()
    ensures status { (files : Contents) (source inputs out : List ℕ) (options : Options)
        (fuel : ℕ) (r : Reply) → Says (batched out)
        (λ found. Batches files source inputs options fuel found) r
        → (r.status ≡ 0) ↔ HasBatch files source inputs options fuel }
    ensures written { (files : Contents) (source inputs out : List ℕ) (options : Options)
        (fuel : ℕ) (r : Reply) → Says (batched out)
        (λ found. Batches files source inputs options fuel found) r → r.status ≡ 0
        → (bytes : List ℕ) × (r.file ≡ Some (record { name = out; bytes = bytes }))
        × IsBatchOf files source inputs options fuel bytes }
    ensures items { (files given : Contents) (source inputs input out : List ℕ)
        (options : Options) (fuel : ℕ) (items : List Item)
        (b : IsBatched files source inputs options fuel items)
        → LoadsAgain files given source options
        → (i : ℕ) (line : List ℕ) → slice_get (lines_of b.text) i ≡ Some line
        → given input ≡ Some line → (r : Reply)
        → Says (witnessed out) (λ found. Witnesses given source input options fuel found) r
        → IsSomeAnd (slice_get items i) (SaysItem out r) }
{}
