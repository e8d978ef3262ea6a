ghost use Rattle.s7_cli.specs.KeptImages.{KeptImagesAnswerAlike, KeptImagesRunAlike};

/// A law: an image that keeps a source with its symbols, as `compiled_image` gives it, is loaded as
/// a program whose run along each list of entries has the text of the source's run. So `run` with
/// the image answers what the source says at the profile of the image; where that is the large one,
/// what `go` answers with the source.
pub fn law_of_kept_images()
    ensures texts { KeptImagesRunAlike }
    ensures answers { KeptImagesAnswerAlike }
{
    controller::laws::continues_replay();
    image_file::laws::gives_exactly_images();
    image_file::laws::one_program();
    sem_kept::laws::law_of_sources();
}
